//! Named patches: that `commute_named` returns an answer where memory is ample. Only tests call it; the program commutes in
//! place.
use dm_named::{Named, commute_named, read_named, write_named};
use std::alloc::Global;

/// The patch at the front of a text moves what the one behind it works in; each has another primitive besides.
const TEXT: &str = "\
[m
p**d] {
move ./d/f ./g
addfile ./h
}
[n
p**d] {
move ./d ./e
adddir ./k
}
";

/// What they commute to.
const COMMUTED: &str = "\
[n
p**d] {
move ./d ./e
adddir ./k
}
[m
p**d] {
move ./e/f ./g
addfile ./h
}
";

/// Appends what two patches commute to, and returns whether they do.
fn push_commuted(
    alloc: Global,
    first: &Named<Global>,
    second: &Named<Global>,
    out: &mut Vec<u8>,
) -> bool {
    match commute_named(alloc, first, second) {
        Ok(Some((above, below))) => write_named(&above, out).is_ok()
            && write_named(&below, out).is_ok(),
        _ => false,
    }
}

/// Appends what the first patch and the one that begins there commute to, and returns whether they do.
fn push_behind(alloc: Global, first: &Named<Global>, at: usize, out: &mut Vec<u8>) -> bool {
    match read_named(alloc, TEXT.as_bytes(), at) {
        Ok((second, _)) => push_commuted(alloc, first, &second, out),
        Err(_) => false,
    }
}

/// Appends what the two patches of the text commute to, and returns whether they do.
fn push_both(alloc: Global, out: &mut Vec<u8>) -> bool {
    match read_named(alloc, TEXT.as_bytes(), 0) {
        Ok((first, _)) => push_behind(alloc, &first, 40, out),
        Err(_) => false,
    }
}

#[test]
fn commutes(rt: HostRuntime) {
    let mut out = Vec::new(rt.alloc());
    assert!(rt; push_both(rt.alloc(), &mut out), "two pass two");
    assert!(rt; out.as_slice() == COMMUTED.as_bytes(), "as they are then");
}
