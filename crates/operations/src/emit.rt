// Emit: any tree's listing goes out with its figures, where there is room for all of it.
ghost use Rattle.std.specs.Prelude.{◌≡◌, leb, length};
ghost use Rattle.formats.specs.ListingText.{listing_text};
ghost use Rattle.writing.specs.Inner.ListingSeen.{listing_seen};
ghost use Rattle.operations.specs.Answers.{emitted, bytes_of, overwritten, plan_answer};

use crate::answers::Planned;
use formats::limits::LISTING_LENGTH_LIMIT;
use formats::refusal::Refusal;
use writing::listing_view::ListingView;

// Whether the listing fits into so many bytes. It is counted only where some listing would not.
pub fn has_room(room: usize, listing: ListingView) -> bool
    ensures { result ≡ leb (length (listing_text listing.entry.n (listing_seen listing.entry))) room }
{
    LISTING_LENGTH_LIMIT <= room || listing.length() <= room
}

// The listing goes to the start of `out`.
pub fn emit(out: &mut [u8], listing: ListingView) -> Result<Planned, Refusal>
    ensures answer { result ≡ plan_answer (emitted listing.entry.n (listing_seen listing.entry) (length out.old)) }
    ensures output { out.new ≡ overwritten (bytes_of (emitted listing.entry.n (listing_seen listing.entry) (length out.old))) out.old }
{
    if !has_room(out.len(), listing) {
        return Err(Refusal::TooShort);
    }
    let bytes = listing.write(out);
    Ok(Planned {
        slack: listing.slack,
        wire: listing.wire,
        bytes,
    })
}
