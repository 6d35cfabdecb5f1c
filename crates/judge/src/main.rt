// Reads a net in net.txt and a listing in tree.txt, and prints the measures of its tree, or the refusal. A refusal is told in words on standard error too.
#![tactic(auto)]

use console::answer::{ANSWER_LENGTH, COMPLAINT_LENGTH, print_judgement};
use console::stream::{read_file, write_out};
use formats::limits::{LISTING_LENGTH_LIMIT, NET_LENGTH_LIMIT};

fn answer(rt: &HostRuntime, net: &[u8], listing: &[u8]) {
    let mut out = [0u8; ANSWER_LENGTH];
    let mut err = [0u8; COMPLAINT_LENGTH];
    let lengths = print_judgement(net, listing, b"net.txt", b"tree.txt", &mut out, &mut err);
    write_out(
        &mut rt.stdout(),
        &mut rt.stderr(),
        &out[..lengths.answer],
        &err[..lengths.complaint],
    );
}

fn main(rt: HostRuntime) {
    // One byte more than a net or a listing may have, so that a longer one is refused.
    let mut net = [0u8; NET_LENGTH_LIMIT + 1];
    let Some(net_bytes) = read_file(&rt, b"net.txt", &mut net, &mut rt.stderr()) else {
        return;
    };
    let mut listing = [0u8; LISTING_LENGTH_LIMIT + 1];
    let Some(listing_bytes) = read_file(&rt, b"tree.txt", &mut listing, &mut rt.stderr()) else {
        return;
    };
    answer(&rt, &net[..net_bytes], &listing[..listing_bytes]);
}
