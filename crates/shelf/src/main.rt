// shelf: standard input is a script, standard output its listing. Lines are found in `window` and read in `setup` and `script`, those of the listing written in `listing`; what a line does is in `runs`.
#![tactic(auto)]

mod turns;

use runs::lengths;
use sizes::Sizes;

// How much of a script is read at once, at most: more than the longest line that can be read.
const WINDOW: usize = 65536;

fn main(rt: HostRuntime) {
    let mut window = [0u8; WINDOW];
    let mut desk = [0u8; lengths::MOST_DESK];
    let mut tree = [0u8; lengths::MOST_TREE];
    let mut path = [0u8; lengths::MOST_PATH];
    let mut record = [0u8; Sizes::RECORD];
    let mut leaves = [0u16; Sizes::MOST_IDS];
    let mut out = [0u8; listing::MOST_ROW];
    let n = listing::header(&mut out);
    if !turns::write_out(&rt, &out[..n]) {
        return;
    }
    turns::run_script(
        &rt,
        &mut window,
        &mut desk,
        &mut tree,
        &mut path,
        &mut record,
        &mut leaves,
        &mut out,
    );
}
