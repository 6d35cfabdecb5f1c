// The marked nets and lines that are checked by running the plans and judge: number, text and line of what each returns, and plan's bytes; of the nets of 02's
// requests 1, 4, 5, 6 and 7 the listing, of those of request 8 the score's bits, of those of request 9 both texts.
#![tactic(auto)]

use console::stream::read_file;
use first_plan::plan::plan;
use formats::limits::{LISTING_LENGTH_LIMIT, NET_LENGTH_LIMIT};
use formats::refusal::{Refusal, Told};
use judging::judge::judge;
use operations::planner::Planner;
use pin_deletion::delete_pin::delete_pin;
use scoring::score::score;
use short_tree::plan_short::ShortTree;
use std::io;
use weighted_tree::plan_weighted::WeightedTree;

fn show_figures(rt: &HostRuntime, told: Told, bytes: usize) -> io::Result<()> {
    let Told { number, text, line } = told;
    println!(rt; "{number},{text},{line} {bytes}")
}

// Nothing is refused.
const NONE: Told = Told {
    number: 0,
    text: 0,
    line: 0,
};

fn show_refusal(rt: &HostRuntime, refusal: Refusal) -> io::Result<()> {
    show_figures(rt, refusal.told(), 0)
}

fn show_judgement(rt: &HostRuntime, net: &[u8], listing: &[u8]) -> io::Result<()> {
    match judge(net, listing) {
        Ok(_) => show_figures(rt, NONE, 0),
        Err(refusal) => show_refusal(rt, refusal),
    }
}

// What judge returns for A and a listing of it.
fn judge_a(rt: &HostRuntime, listing: &[u8]) -> io::Result<()> {
    show_judgement(
        rt,
        b"root=0,0\nbranch=20\nwire=2,2\nneed=0\nsinks=3\nsink=10,0,100,1\nsink=4,6,60,1\nsink=10,10,70,1\n",
        listing,
    )
}

// What judge returns for the listing in the first bytes of `out`.
fn judge_written(rt: &HostRuntime, net: &[u8], out: &[u8], bytes: usize) -> io::Result<()> {
    if out.len() < bytes {
        return Ok(());
    }
    show_judgement(rt, net, &out[..bytes])
}

// What plan returns, then what judge returns: over what plan wrote, or over no listing where the net is refused.
fn show(rt: &HostRuntime, net: &[u8]) -> io::Result<()> {
    let mut out = [0u8; LISTING_LENGTH_LIMIT];
    match plan(net, &mut out) {
        Ok(planned) => {
            show_figures(rt, NONE, planned.bytes)?;
            judge_written(rt, net, &out, planned.bytes)
        }
        Err(refusal) => {
            show_refusal(rt, refusal)?;
            show_judgement(rt, net, b"no listing")
        }
    }
}

fn print_listing(rt: &HostRuntime, out: &[u8], bytes: usize) -> io::Result<()> {
    if out.len() < bytes {
        return Ok(());
    }
    rt.write_all(&out[..bytes])
}

fn show_listing(rt: &HostRuntime, net: &[u8]) -> io::Result<()> {
    let mut out = [0u8; LISTING_LENGTH_LIMIT];
    match plan(net, &mut out) {
        Ok(planned) => print_listing(rt, &out, planned.bytes),
        Err(refusal) => show_refusal(rt, refusal),
    }
}

// The listing of a plan that ignores need, and what judge returns for it.
fn show_tree<P: Planner>(rt: &HostRuntime, net: &[u8]) -> io::Result<()> {
    let mut out = [0u8; LISTING_LENGTH_LIMIT];
    match P::plan(net, &mut out) {
        Ok(planned) => {
            print_listing(rt, &out, planned.bytes)?;
            judge_written(rt, net, &out, planned.bytes)
        }
        Err(refusal) => show_refusal(rt, refusal),
    }
}

// The bits of the score, or its refusal.
fn show_score(
    rt: &HostRuntime,
    net: &[u8],
    listing: &[u8],
    alpha_1024ths: i64,
    beta_1024ths: i64,
    cap: i64,
) -> io::Result<()> {
    match score(net, listing, alpha_1024ths, beta_1024ths, cap) {
        Ok(given) => {
            let bits = f64::to_bits(given);
            println!(rt; "{bits:016x}")
        }
        Err(refusal) => show_refusal(rt, refusal),
    }
}

// What judge returns for the net and the listing in the first bytes of two outputs.
fn judge_shorter(
    rt: &HostRuntime,
    net_out: &[u8],
    net_bytes: usize,
    listing_out: &[u8],
    listing_bytes: usize,
) -> io::Result<()> {
    if net_out.len() < net_bytes {
        return Ok(());
    }
    judge_written(rt, &net_out[..net_bytes], listing_out, listing_bytes)
}

// Both texts without a sink and what judge returns for them, or the refusal.
fn show_deletion(
    rt: &HostRuntime,
    net: &[u8],
    listing: &[u8],
    sink: usize,
    net_out: &mut [u8],
    listing_out: &mut [u8],
) -> io::Result<()> {
    match delete_pin(net, listing, sink, net_out, listing_out) {
        Ok(deleted) => {
            print_listing(rt, net_out, deleted.net_bytes)?;
            print_listing(rt, listing_out, deleted.listing_bytes)?;
            judge_shorter(
                rt,
                net_out,
                deleted.net_bytes,
                listing_out,
                deleted.listing_bytes,
            )
        }
        Err(refusal) => show_refusal(rt, refusal),
    }
}

// The same into outputs that have room for any texts.
fn show_without(rt: &HostRuntime, net: &[u8], listing: &[u8], sink: usize) -> io::Result<()> {
    let mut net_out = [0u8; NET_LENGTH_LIMIT];
    let mut listing_out = [0u8; LISTING_LENGTH_LIMIT];
    show_deletion(rt, net, listing, sink, &mut net_out, &mut listing_out)
}

fn show_file(rt: &HostRuntime, name: &[u8]) -> io::Result<()> {
    let mut net = [0u8; NET_LENGTH_LIMIT + 1];
    match read_file(rt, name, &mut net, &mut rt.stderr()) {
        Some(bytes) => show(rt, &net[..bytes]),
        None => Ok(()),
    }
}

// Nets of 01 that are refused as they are read, and A.
fn show_lines(rt: &HostRuntime) -> io::Result<()> {
    // Empty net: 2,1,1.
    show(rt, b"")?;
    // `branch=0`: 3,1,2.
    show(
        rt,
        b"root=0,0\nbranch=0\nwire=2,2\nneed=0\nsinks=3\nsink=10,0,100,1\nsink=4,6,60,1\nsink=10,10,70,1\n",
    )?;
    // `need=-0`: 2,1,4.
    show(
        rt,
        b"root=0,0\nbranch=20\nwire=2,2\nneed=-0\nsinks=3\nsink=10,0,100,1\nsink=4,6,60,1\nsink=10,10,70,1\n",
    )?;
    // A, and A with `need=1`: 5,1,4; judge reads the net and refuses the listing.
    show(
        rt,
        b"root=0,0\nbranch=20\nwire=2,2\nneed=0\nsinks=3\nsink=10,0,100,1\nsink=4,6,60,1\nsink=10,10,70,1\n",
    )?;
    show(
        rt,
        b"root=0,0\nbranch=20\nwire=2,2\nneed=1\nsinks=3\nsink=10,0,100,1\nsink=4,6,60,1\nsink=10,10,70,1\n",
    )?;
    // `sinks=513`: 3,1,5.
    show(
        rt,
        b"root=0,0\nbranch=20\nwire=2,2\nneed=0\nsinks=513\nsink=10,0,100,1\nsink=4,6,60,1\nsink=10,10,70,1\n",
    )?;
    // 512 sinks pass.
    show_file(rt, b"sinks512.txt")
}

// Positions at their limit and beyond, with the pin limit of 02's request 2, in the nanometres of its request 5.
fn show_positions(rt: &HostRuntime) -> io::Result<()> {
    // X 100000000 passes with a root near enough, else 13.
    show(
        rt,
        b"root=60000000,0\nbranch=20\nwire=2,2\nneed=-2000000000000000\nsinks=1\nsink=100000000,0,100,1\n",
    )?;
    show(
        rt,
        b"root=0,0\nbranch=20\nwire=2,2\nneed=-2000000000000000\nsinks=1\nsink=100000000,0,100,1\n",
    )?;
    // 100000001: 3, in X and Y of the root and of a sink.
    show(
        rt,
        b"root=100000001,0\nbranch=20\nwire=2,2\nneed=-2000000000000000\nsinks=1\nsink=100000000,0,100,1\n",
    )?;
    show(
        rt,
        b"root=0,-100000001\nbranch=20\nwire=2,2\nneed=-2000000000000000\nsinks=1\nsink=0,-100000000,100,1\n",
    )?;
    show(
        rt,
        b"root=0,0\nbranch=20\nwire=2,2\nneed=-2000000000000000\nsinks=1\nsink=100000001,0,100,1\n",
    )?;
    show(
        rt,
        b"root=0,100000000\nbranch=20\nwire=2,2\nneed=-2000000000000000\nsinks=1\nsink=0,100000001,100,1\n",
    )?;
    // 40,000,000 from the root passes, 40,000,001: 13; by X alone, then by X and Y.
    show(
        rt,
        b"root=0,0\nbranch=20\nwire=2,2\nneed=-2000000000000000\nsinks=1\nsink=40000000,0,100,1\n",
    )?;
    show(
        rt,
        b"root=0,0\nbranch=20\nwire=2,2\nneed=-2000000000000000\nsinks=1\nsink=40000001,0,100,1\n",
    )?;
    show(
        rt,
        b"root=-10000000,5000000\nbranch=20\nwire=2,2\nneed=-2000000000000000\nsinks=1\nsink=5000000,-20000000,100,1\n",
    )?;
    show(
        rt,
        b"root=-10000000,5000000\nbranch=20\nwire=2,2\nneed=-2000000000000000\nsinks=1\nsink=5000000,-20000001,100,1\n",
    )?;
    // A far pin, then a line that is misspelt: the first line that is refused.
    show(
        rt,
        b"root=0,0\nbranch=20\nwire=2,2\nneed=-2000000000000000\nsinks=3\nsink=10,0,100,1\nsink=0,-40000001,60,1\nsink=x\n",
    )
}

// The ends of the ranges of c, t, a, W and L, which 02's request 5 moves.
fn show_ranges(rt: &HostRuntime) -> io::Result<()> {
    // Both ends of c, t and a pass: the lowest t is reached, the highest is not (5).
    show(
        rt,
        b"root=0,0\nbranch=1\nwire=2,2\nneed=-2000000000000000\nsinks=1\nsink=0,0,-1000000000000000,1\n",
    )?;
    show(
        rt,
        b"root=0,0\nbranch=1000000000\nwire=2,2\nneed=2000000000000000\nsinks=1\nsink=0,0,1000000000000000,1\n",
    )?;
    // One past them: 3, as of `branch=0` above.
    show(
        rt,
        b"root=0,0\nbranch=1000000001\nwire=2,2\nneed=0\nsinks=1\nsink=0,0,0,1\n",
    )?;
    show(
        rt,
        b"root=0,0\nbranch=20\nwire=2,2\nneed=-2000000000000001\nsinks=1\nsink=0,0,0,1\n",
    )?;
    show(
        rt,
        b"root=0,0\nbranch=20\nwire=2,2\nneed=2000000000000001\nsinks=1\nsink=0,0,0,1\n",
    )?;
    show(
        rt,
        b"root=0,0\nbranch=20\nwire=2,2\nneed=0\nsinks=1\nsink=0,0,-1000000000000001,1\n",
    )?;
    show(
        rt,
        b"root=0,0\nbranch=20\nwire=2,2\nneed=0\nsinks=1\nsink=0,0,1000000000000001,1\n",
    )?;
    // A's listing with W and L at their ends: 11, 12; one past them: 3.
    judge_a(
        rt,
        b"slack=-4000000000000000\nwire=32\nsinks=3\nleaf=1,5\nleaf=2,5\nleaf=3,4\nnode=4,0,4,0\nnode=5,4,4,0\n",
    )?;
    judge_a(
        rt,
        b"slack=4000000000000000\nwire=32\nsinks=3\nleaf=1,5\nleaf=2,5\nleaf=3,4\nnode=4,0,4,0\nnode=5,4,4,0\n",
    )?;
    judge_a(
        rt,
        b"slack=-4000000000000001\nwire=32\nsinks=3\nleaf=1,5\nleaf=2,5\nleaf=3,4\nnode=4,0,4,0\nnode=5,4,4,0\n",
    )?;
    judge_a(
        rt,
        b"slack=4000000000000001\nwire=32\nsinks=3\nleaf=1,5\nleaf=2,5\nleaf=3,4\nnode=4,0,4,0\nnode=5,4,4,0\n",
    )?;
    judge_a(
        rt,
        b"slack=0\nwire=0\nsinks=3\nleaf=1,5\nleaf=2,5\nleaf=3,4\nnode=4,0,4,0\nnode=5,4,4,0\n",
    )?;
    judge_a(
        rt,
        b"slack=0\nwire=1000000000000\nsinks=3\nleaf=1,5\nleaf=2,5\nleaf=3,4\nnode=4,0,4,0\nnode=5,4,4,0\n",
    )?;
    judge_a(
        rt,
        b"slack=0\nwire=-1\nsinks=3\nleaf=1,5\nleaf=2,5\nleaf=3,4\nnode=4,0,4,0\nnode=5,4,4,0\n",
    )?;
    judge_a(
        rt,
        b"slack=0\nwire=1000000000001\nsinks=3\nleaf=1,5\nleaf=2,5\nleaf=3,4\nnode=4,0,4,0\nnode=5,4,4,0\n",
    )
}

// 02's request 5: long texts, and "Nothing is lost".
fn show_nanometres(rt: &HostRuntime) -> io::Result<()> {
    // 512 sinks with the longest numbers of all ranges.
    show_file(rt, b"longest512.txt")?;
    // A net, and 1,000 times that net.
    show_listing(
        rt,
        b"root=-3,2\nbranch=20\nwire=2,6\nneed=-30\nsinks=4\nsink=7,2,40,1\nsink=1,8,64,1\nsink=7,8,110,1\nsink=5,-4,97,1\n",
    )?;
    show_listing(
        rt,
        b"root=-3000,2000\nbranch=20000\nwire=2,6\nneed=-30000\nsinks=4\nsink=7000,2000,40000,1\nsink=1000,8000,64000,1\nsink=7000,8000,110000,1\nsink=5000,-4000,97000,1\n",
    )
}

// The two factors of 02's request 4.
fn show_factors(rt: &HostRuntime) -> io::Result<()> {
    // One number, three: 2,1,3.
    show(
        rt,
        b"root=0,0\nbranch=20\nwire=2\nneed=0\nsinks=3\nsink=10,0,100,1\nsink=4,6,110,1\nsink=10,10,150,1\n",
    )?;
    show(
        rt,
        b"root=0,0\nbranch=20\nwire=2,6,2\nneed=0\nsinks=3\nsink=10,0,100,1\nsink=4,6,110,1\nsink=10,10,150,1\n",
    )?;
    // 1 and 10000 pass, 0 and 10001: 3,1,3.
    show(
        rt,
        b"root=0,0\nbranch=20\nwire=1,10000\nneed=-2000000000000000\nsinks=1\nsink=3,4,100,1\n",
    )?;
    show(
        rt,
        b"root=0,0\nbranch=20\nwire=10000,1\nneed=-2000000000000000\nsinks=1\nsink=3,4,100,1\n",
    )?;
    show(
        rt,
        b"root=0,0\nbranch=20\nwire=0,6\nneed=0\nsinks=1\nsink=3,4,100,1\n",
    )?;
    show(
        rt,
        b"root=0,0\nbranch=20\nwire=2,0\nneed=0\nsinks=1\nsink=3,4,100,1\n",
    )?;
    show(
        rt,
        b"root=0,0\nbranch=20\nwire=10001,6\nneed=0\nsinks=1\nsink=3,4,100,1\n",
    )?;
    show(
        rt,
        b"root=0,0\nbranch=20\nwire=2,10001\nneed=0\nsinks=1\nsink=3,4,100,1\n",
    )?;
    // Both factors, then either alone: three trees.
    show_listing(
        rt,
        b"root=0,0\nbranch=20\nwire=2,6\nneed=0\nsinks=3\nsink=10,0,100,1\nsink=4,6,110,1\nsink=10,10,150,1\n",
    )?;
    show_listing(
        rt,
        b"root=0,0\nbranch=20\nwire=2,2\nneed=0\nsinks=3\nsink=10,0,100,1\nsink=4,6,110,1\nsink=10,10,150,1\n",
    )?;
    show_listing(
        rt,
        b"root=0,0\nbranch=20\nwire=6,6\nneed=0\nsinks=3\nsink=10,0,100,1\nsink=4,6,110,1\nsink=10,10,150,1\n",
    )?;
    // Nearness stays plain: sink 3 joins sink 2, which is 4 nanometres off, and not sink 1, 6 off.
    show_listing(
        rt,
        b"root=0,0\nbranch=20\nwire=2,6\nneed=-40\nsinks=3\nsink=10,4,44,1\nsink=4,0,8,1\nsink=4,4,32,1\n",
    )
}

// Request 6 of 02: A, also with a need that no tree has; ties by sink; the edge above a branch point; ties by lower end; one sink; a far pin: 13,1,6.
fn show_short_trees(rt: &HostRuntime) -> io::Result<()> {
    show_tree::<ShortTree>(
        rt,
        b"root=0,0\nbranch=20\nwire=2,2\nneed=0\nsinks=3\nsink=10,0,100,1\nsink=4,6,60,1\nsink=10,10,70,1\n",
    )?;
    show_tree::<ShortTree>(
        rt,
        b"root=0,0\nbranch=20\nwire=2,2\nneed=1\nsinks=3\nsink=10,0,100,1\nsink=4,6,60,1\nsink=10,10,70,1\n",
    )?;
    show_tree::<ShortTree>(
        rt,
        b"root=0,0\nbranch=20\nwire=2,3\nneed=0\nsinks=3\nsink=3,4,60,1\nsink=2,4,60,1\nsink=5,0,60,1\n",
    )?;
    show_tree::<ShortTree>(
        rt,
        b"root=0,0\nbranch=20\nwire=2,2\nneed=0\nsinks=3\nsink=10,2,100,1\nsink=10,-2,100,1\nsink=5,9,100,1\n",
    )?;
    show_tree::<ShortTree>(
        rt,
        b"root=0,0\nbranch=20\nwire=2,2\nneed=-40\nsinks=3\nsink=0,0,0,1\nsink=0,0,0,1\nsink=0,0,0,1\n",
    )?;
    show_tree::<ShortTree>(
        rt,
        b"root=0,0\nbranch=20\nwire=2,2\nneed=0\nsinks=1\nsink=3,4,10,1\n",
    )?;
    show_tree::<ShortTree>(
        rt,
        b"root=0,0\nbranch=20\nwire=2,2\nneed=0\nsinks=1\nsink=40000001,0,100,1\n",
    )
}

// Request 7 of 02: weights 1, 1, 2, 3, 5; ties between sinks and a joined vertex, and among joined ones; A with weights 5, 1, 1, also with a need that no tree has;
// one sink.
fn show_weighted_trees(rt: &HostRuntime) -> io::Result<()> {
    show_tree::<WeightedTree>(
        rt,
        b"root=0,0\nbranch=20\nwire=2,2\nneed=0\nsinks=5\nsink=8,0,100,1\nsink=8,4,100,1\nsink=2,6,100,2\nsink=-4,2,100,3\nsink=0,-5,100,5\n",
    )?;
    show_tree::<WeightedTree>(
        rt,
        b"root=0,0\nbranch=20\nwire=2,2\nneed=0\nsinks=4\nsink=8,0,100,3\nsink=8,4,100,1\nsink=2,6,100,2\nsink=4,2,100,3\n",
    )?;
    show_tree::<WeightedTree>(
        rt,
        b"root=0,0\nbranch=20\nwire=2,2\nneed=0\nsinks=6\nsink=8,0,100,1\nsink=8,4,100,1\nsink=2,6,100,1\nsink=4,2,100,1\nsink=1,9,100,1\nsink=6,6,100,1\n",
    )?;
    show_tree::<WeightedTree>(
        rt,
        b"root=0,0\nbranch=20\nwire=2,2\nneed=0\nsinks=3\nsink=10,0,100,5\nsink=4,6,60,1\nsink=10,10,70,1\n",
    )?;
    show_tree::<WeightedTree>(
        rt,
        b"root=0,0\nbranch=20\nwire=2,2\nneed=1\nsinks=3\nsink=10,0,100,5\nsink=4,6,60,1\nsink=10,10,70,1\n",
    )?;
    show_tree::<WeightedTree>(
        rt,
        b"root=0,0\nbranch=20\nwire=2,2\nneed=0\nsinks=1\nsink=3,4,10,1000\n",
    )
}

// Weights at the ends of their range: they pass; one past it: 3,1,6; none, or two: 2,1,6; a far pin: 13,1,6, after 3.
fn show_weights(rt: &HostRuntime) -> io::Result<()> {
    show_tree::<WeightedTree>(
        rt,
        b"root=0,0\nbranch=20\nwire=2,2\nneed=0\nsinks=1\nsink=0,0,0,1\n",
    )?;
    show_tree::<WeightedTree>(
        rt,
        b"root=0,0\nbranch=20\nwire=2,2\nneed=0\nsinks=1\nsink=0,0,0,0\n",
    )?;
    show_tree::<WeightedTree>(
        rt,
        b"root=0,0\nbranch=20\nwire=2,2\nneed=0\nsinks=1\nsink=0,0,0,1001\n",
    )?;
    show_tree::<WeightedTree>(
        rt,
        b"root=0,0\nbranch=20\nwire=2,2\nneed=0\nsinks=1\nsink=0,0,0\n",
    )?;
    show_tree::<WeightedTree>(
        rt,
        b"root=0,0\nbranch=20\nwire=2,2\nneed=0\nsinks=1\nsink=0,0,0,1,1\n",
    )?;
    show_tree::<WeightedTree>(
        rt,
        b"root=0,0\nbranch=20\nwire=2,2\nneed=0\nsinks=1\nsink=40000001,0,0,1000\n",
    )?;
    show_tree::<WeightedTree>(
        rt,
        b"root=0,0\nbranch=20\nwire=2,2\nneed=0\nsinks=1\nsink=40000001,0,0,1001\n",
    )?;
    show(
        rt,
        b"root=0,0\nbranch=20\nwire=2,2\nneed=0\nsinks=1\nsink=0,0,0\n",
    )?;
    show_tree::<ShortTree>(
        rt,
        b"root=0,0\nbranch=20\nwire=2,2\nneed=0\nsinks=1\nsink=0,0,0\n",
    )
}

// The score of A's plan, of slack 0 and wire 32.
fn score_a(rt: &HostRuntime, alpha_1024ths: i64, beta_1024ths: i64, cap: i64) -> io::Result<()> {
    show_score(
        rt,
        b"root=0,0\nbranch=20\nwire=2,2\nneed=0\nsinks=3\nsink=10,0,100,1\nsink=4,6,60,1\nsink=10,10,70,1\n",
        b"slack=0\nwire=32\nsinks=3\nleaf=1,5\nleaf=2,5\nleaf=3,4\nnode=4,0,4,0\nnode=5,4,4,0\n",
        alpha_1024ths,
        beta_1024ths,
        cap,
    )
}

// The score of one sink of slack 7 at the end of a wire of 7.
fn score_pin(rt: &HostRuntime, alpha_1024ths: i64, beta_1024ths: i64, cap: i64) -> io::Result<()> {
    show_score(
        rt,
        b"root=0,0\nbranch=20\nwire=2,2\nneed=0\nsinks=1\nsink=3,4,21,1\n",
        b"slack=7\nwire=7\nsinks=1\nleaf=1,0\n",
        alpha_1024ths,
        beta_1024ths,
        cap,
    )
}

// Request 8 of 02: -32, twice; zeros; 6, 7, 7 and -1/1024.
fn show_scores(rt: &HostRuntime) -> io::Result<()> {
    score_a(rt, 1024, 1024, 0)?;
    score_a(rt, 0, 1024, 0)?;
    score_a(rt, 1024, 0, 0)?;
    score_a(rt, 0, 0, 0)?;
    score_pin(rt, 1024, 1024, 8)?;
    score_pin(rt, 1024, 0, 6)?;
    score_pin(rt, 1024, 0, 7)?;
    score_pin(rt, 1024, 0, 8)?;
    score_pin(rt, 1, 1, 6)
}

// Slacks of -40, at both ends, and one too late: 14,0,0, also where A is 0; then one past each end of A, B and the cap: 14,0,0.
fn show_score_ends(rt: &HostRuntime) -> io::Result<()> {
    show_score(
        rt,
        b"root=0,0\nbranch=20\nwire=2,2\nneed=-40\nsinks=3\nsink=0,0,0,1\nsink=0,0,0,1\nsink=0,0,0,1\n",
        b"slack=-40\nwire=0\nsinks=3\nleaf=1,5\nleaf=2,4\nleaf=3,5\nnode=4,0,0,0\nnode=5,4,0,0\n",
        0,
        1024,
        0,
    )?;
    show_score(
        rt,
        b"root=0,0\nbranch=20\nwire=2,2\nneed=0\nsinks=1\nsink=0,0,-1000000000000,1\n",
        b"slack=-1000000000000\nwire=0\nsinks=1\nleaf=1,0\n",
        1024,
        1024,
        1_000_000_000_000,
    )?;
    show_score(
        rt,
        b"root=0,0\nbranch=20\nwire=2,2\nneed=0\nsinks=1\nsink=0,0,1000000000000000,1\n",
        b"slack=1000000000000000\nwire=0\nsinks=1\nleaf=1,0\n",
        1024,
        1024,
        1_000_000_000_000,
    )?;
    score_late(rt, 1024, 1024)?;
    score_late(rt, 0, 0)?;
    score_a(rt, -1, 0, 0)?;
    score_a(rt, 1025, 0, 0)?;
    score_a(rt, 0, -1, 0)?;
    score_a(rt, 0, 1025, 0)?;
    score_a(rt, 0, 0, -1)?;
    score_a(rt, 0, 0, 1_000_000_000_001)
}

fn score_late(rt: &HostRuntime, alpha_1024ths: i64, beta_1024ths: i64) -> io::Result<()> {
    show_score(
        rt,
        b"root=0,0\nbranch=20\nwire=2,2\nneed=0\nsinks=1\nsink=0,0,-1000000000001,1\n",
        b"slack=-1000000000001\nwire=0\nsinks=1\nleaf=1,0\n",
        alpha_1024ths,
        beta_1024ths,
        0,
    )
}

// Judge's refusals go before: 2,1,1, 11,2,1 and 12,2,2.
fn show_score_refusals(rt: &HostRuntime) -> io::Result<()> {
    show_score(rt, b"", b"", -1, -1, -1)?;
    show_score(
        rt,
        b"root=0,0\nbranch=20\nwire=2,2\nneed=0\nsinks=3\nsink=10,0,100,1\nsink=4,6,60,1\nsink=10,10,70,1\n",
        b"slack=1\nwire=32\nsinks=3\nleaf=1,5\nleaf=2,5\nleaf=3,4\nnode=4,0,4,0\nnode=5,4,4,0\n",
        -1,
        -1,
        -1,
    )?;
    show_score(
        rt,
        b"root=0,0\nbranch=20\nwire=2,2\nneed=0\nsinks=3\nsink=10,0,100,1\nsink=4,6,60,1\nsink=10,10,70,1\n",
        b"slack=0\nwire=31\nsinks=3\nleaf=1,5\nleaf=2,5\nleaf=3,4\nnode=4,0,4,0\nnode=5,4,4,0\n",
        -1,
        -1,
        -1,
    )
}

// A without a sink.
fn show_a_without(rt: &HostRuntime, sink: usize) -> io::Result<()> {
    show_without(
        rt,
        b"root=0,0\nbranch=20\nwire=2,2\nneed=0\nsinks=3\nsink=10,0,100,1\nsink=4,6,60,1\nsink=10,10,70,1\n",
        b"slack=0\nwire=32\nsinks=3\nleaf=1,5\nleaf=2,5\nleaf=3,4\nnode=4,0,4,0\nnode=5,4,4,0\n",
        sink,
    )
}

// Four sinks without one: branch point 5 hangs on the root, 6 with sinks 1 and 2 and 7 with sinks 3 and 4 on 5.
fn show_four_without(rt: &HostRuntime, sink: usize) -> io::Result<()> {
    show_without(
        rt,
        b"root=0,0\nbranch=1\nwire=1,2\nneed=500\nsinks=4\nsink=1,0,10,7\nsink=2,0,20,8\nsink=3,0,30,9\nsink=4,0,40,10\n",
        b"slack=3\nwire=8\nsinks=4\nleaf=1,6\nleaf=2,6\nleaf=3,7\nleaf=4,7\nnode=5,0,1,1\nnode=6,5,1,0\nnode=7,5,3,0\n",
        sink,
    )
}

// A without each sink; then two sinks without one, and four without one.
fn show_deletions(rt: &HostRuntime) -> io::Result<()> {
    show_a_without(rt, 1)?;
    show_a_without(rt, 2)?;
    show_a_without(rt, 3)?;
    show_without(
        rt,
        b"root=0,0\nbranch=20\nwire=2,2\nneed=0\nsinks=2\nsink=10,0,100,1\nsink=4,6,60,1\n",
        b"slack=20\nwire=16\nsinks=2\nleaf=1,3\nleaf=2,3\nnode=3,0,4,0\n",
        1,
    )?;
    show_four_without(rt, 1)?;
    show_four_without(rt, 3)
}

// One sink: 16 for it, 15 for any other number.
fn show_one_without(rt: &HostRuntime, sink: usize) -> io::Result<()> {
    show_without(
        rt,
        b"root=0,0\nbranch=20\nwire=2,2\nneed=0\nsinks=1\nsink=4,6,60,1\n",
        b"slack=40\nwire=10\nsinks=1\nleaf=1,0\n",
        sink,
    )
}

// A without sink 1 has 73 bytes, its listing 56: 6 where the net's output has one byte less, and both stay full of dots.
fn show_short_net(rt: &HostRuntime) -> io::Result<()> {
    let mut net_out = [46u8; 72];
    let mut listing_out = [46u8; 56];
    show_deletion(
        rt,
        b"root=0,0\nbranch=20\nwire=2,2\nneed=0\nsinks=3\nsink=10,0,100,1\nsink=4,6,60,1\nsink=10,10,70,1\n",
        b"slack=0\nwire=32\nsinks=3\nleaf=1,5\nleaf=2,5\nleaf=3,4\nnode=4,0,4,0\nnode=5,4,4,0\n",
        1,
        &mut net_out,
        &mut listing_out,
    )?;
    rt.write_all(&net_out)?;
    rt.write_all(&listing_out)?;
    rt.write_all(b"\n")
}

// The same where the listing's output has one byte less.
fn show_short_listing(rt: &HostRuntime) -> io::Result<()> {
    let mut net_out = [46u8; 73];
    let mut listing_out = [46u8; 55];
    show_deletion(
        rt,
        b"root=0,0\nbranch=20\nwire=2,2\nneed=0\nsinks=3\nsink=10,0,100,1\nsink=4,6,60,1\nsink=10,10,70,1\n",
        b"slack=0\nwire=32\nsinks=3\nleaf=1,5\nleaf=2,5\nleaf=3,4\nnode=4,0,4,0\nnode=5,4,4,0\n",
        1,
        &mut net_out,
        &mut listing_out,
    )?;
    rt.write_all(&net_out)?;
    rt.write_all(&listing_out)?;
    rt.write_all(b"\n")
}

// 15 and 16 in their order, then 6; judge's refusals go before.
fn show_deletion_refusals(rt: &HostRuntime) -> io::Result<()> {
    show_a_without(rt, 0)?;
    show_a_without(rt, 4)?;
    show_one_without(rt, 1)?;
    show_one_without(rt, 2)?;
    show_short_net(rt)?;
    show_short_listing(rt)?;
    show_without(rt, b"", b"", 0)?;
    show_without(
        rt,
        b"root=0,0\nbranch=20\nwire=2,2\nneed=0\nsinks=3\nsink=10,0,100,1\nsink=4,6,60,1\nsink=10,10,70,1\n",
        b"slack=1\nwire=32\nsinks=3\nleaf=1,5\nleaf=2,5\nleaf=3,4\nnode=4,0,4,0\nnode=5,4,4,0\n",
        0,
    )?;
    show_without(
        rt,
        b"root=0,0\nbranch=20\nwire=2,2\nneed=0\nsinks=3\nsink=10,0,100,1\nsink=4,6,60,1\nsink=10,10,70,1\n",
        b"slack=0\nwire=31\nsinks=3\nleaf=1,5\nleaf=2,5\nleaf=3,4\nnode=4,0,4,0\nnode=5,4,4,0\n",
        4,
    )
}

fn main(rt: HostRuntime) -> io::Result<()> {
    show_lines(&rt)?;
    show_positions(&rt)?;
    // Request 1 of 02: the edge above a branch point is the nearest; sink 2 is nearer than sink 1.
    show_listing(
        &rt,
        b"root=0,0\nbranch=20\nwire=2,2\nneed=-40\nsinks=3\nsink=10,0,20,1\nsink=10,0,20,1\nsink=1,0,2,1\n",
    )?;
    show_listing(
        &rt,
        b"root=0,0\nbranch=20\nwire=2,2\nneed=-40\nsinks=3\nsink=10,0,20,1\nsink=0,10,20,1\nsink=1,10,22,1\n",
    )?;
    show_factors(&rt)?;
    show_ranges(&rt)?;
    show_nanometres(&rt)?;
    show_short_trees(&rt)?;
    show_weighted_trees(&rt)?;
    show_weights(&rt)?;
    show_scores(&rt)?;
    show_score_ends(&rt)?;
    show_score_refusals(&rt)?;
    show_deletions(&rt)?;
    show_deletion_refusals(&rt)
}
