//! Texts of binaries, of replaces and of changes of preferences, worked out by hand.
use dm_named::{Kinds, Limits, Named, ReadFault, read_named, read_named_within, write_named};
use std::alloc::Global;

/// Pairs with a binary, a replace or a change of a preference, as the other rows are.
pub(crate) const PAIRS: &str = "\
[a binary passes work elsewhere
p**d] {
binary ./f
oldhex
*
newhex
*61
addfile ./g
addfile ./g
binary ./f
oldhex
*
newhex
*61
}

[a binary passes no hunk of its file
p**d] {
binary ./f
oldhex
*
newhex
*61
hunk ./f 1
-a
+b
}

[no work that adds its file passes a binary
p**d] {
addfile ./f
binary ./f
oldhex
*
newhex
*61
}

[a binary goes with its file
p**d] {
binary ./d/f
oldhex
*
newhex
*61
move ./d ./e
move ./d ./e
binary ./e/f
oldhex
*
newhex
*61
}

[a replace passes work elsewhere
p**d] {
replace ./f [a-z] x y
addfile ./g
addfile ./g
replace ./f [a-z] x y
}

[a replace passes a hunk of its file
p**d] {
replace ./f [a-z] x y
hunk ./f 1
-y
+b-y
hunk ./f 1
-x
+b-x
replace ./f [a-z] x y
}

[a replace passes no hunk with its old token
p**d] {
replace ./f [a-z] x y
hunk ./f 1
-a
+x
}

[a hunk passes a replace of its file
p**d] {
hunk ./f 1
-a x
+xx
replace ./f [a-z] x yy
replace ./f [a-z] x yy
hunk ./f 1
-a yy
+xx
}

[no hunk with the new token passes a replace of its file
p**d] {
hunk ./f 1
-a
+y
replace ./f [a-z] x y
}

[replaces of one set pass each other
p**d] {
replace ./f [a-z] x y
replace ./f [a-z] v w
replace ./f [a-z] v w
replace ./f [a-z] x y
}

[no replaces with one token pass each other
p**d] {
replace ./f [a-z] x y
replace ./f [a-z] y z
}

[no replaces of two sets pass each other
p**d] {
replace ./f [a-z] x y
replace ./f [a-z_] v w
}

[no work that adds its file passes a replace
p**d] {
addfile ./f
replace ./f [a-z] x y
}

[a replace goes with its file
p**d] {
replace ./d/f [a-z] x y
move ./d ./e
move ./d ./e
replace ./e/f [a-z] x y
}

[a replace passes a value of a preference
p**d] {
replace ./f [a-z] x y
changepref test
a
b
changepref test
a
b
replace ./f [a-z] x y
}

[values of one preference pass each other
p**d] {
changepref test
a
b
changepref test
b
c
changepref test
b
c
changepref test
a
b
}";

/// Texts of named patches, and below the dash what is written of each.
const READ: &str = "\
[digits in either case in lines of any length
p**d] binary  ./a oldhex
newhex  
*61
*620A0
*0
-
[digits in either case in lines of any length
p**d] binary ./a
oldhex
*
newhex
*61620a00
=
[no star lines for no content
p**d] binary ./a oldhex newhex
-
[no star lines for no content
p**d] binary ./a
oldhex
*
newhex
*
=
[39 bytes and 40
p**d] binary ./a
oldhex
*616161616161616161616161616161616161616161616161616161616161616161616161616161
newhex
*61616161616161616161616161616161616161616161616161616161616161616161616161616161
-
[39 bytes and 40
p**d] binary ./a
oldhex
*616161616161616161616161616161616161616161616161616161616161616161616161616161
*
newhex
*616161616161616161616161616161616161616161616161616161616161616161616161616161
*61
=
[a token on a line of its own
p**d] replace  ./a [A-Za-z_0-9] old
new
-
[a token on a line of its own
p**d] replace ./a [A-Za-z_0-9] old new
=
[a set with a hyphen and a dot, and one that is turned round
p**d] {
replace ./a [A-Za-z_0-9\\-\\.] a.b-c x replace ./a [^\\n:] x x }
-
[a set with a hyphen and a dot, and one that is turned round
p**d] {
replace ./a [A-Za-z_0-9\\-\\.] a.b-c x
replace ./a [^\\n:] x x
}
=
[a set of brackets
p**d] replace ./a [[]] [ ]]
-
[a set of brackets
p**d] replace ./a [[]] [ ]]
=
[values that are empty
p**d] changepref  test


-
[values that are empty
p**d] changepref test


=
[a value that looks like a brace
p**d] changepref test
 old 
}
addfile ./a
-
[a value that looks like a brace
p**d] {
changepref test
 old 
}
addfile ./a
}";

/// Faults, and below each the text that has it.
const FAULTS: &str = "\
bad-hex at byte 20
[a
p**d] binary ./a
newhex
*
=
bad-hex at byte 20
[a
p**d] binary ./a
oldhex
*6
newhex
*
=
bad-hex at byte 20
[a
p**d] binary ./a
oldhex
*61 
newhex
=
bad-hex at byte 31
[a
p**d] binary ./a
oldhex
*61
newhex
*6g
=
bad-hex at byte 20
[a
p**d] binary ./a
oldhex*61
newhex
=
bad-path at byte 16
[a
p**d] binary ./../a
oldhex
newhex
=
bad-path at byte 19
[a
p**d] replace 

Context:
=
bad-path at byte 17
[a
p**d] replace ./../a [a-z] x y
=
bad-tokens at byte 22
[a
p**d] replace ./a  [a-z] x
=
bad-tokens at byte 21
[a
p**d] replace ./a a-z x y
=
bad-tokens at byte 21
[a
p**d] replace ./a [a-z x y
=
bad-tokens at byte 21
[a
p**d] replace ./a [a-z] x Y
=
bad-tokens at byte 21
[a
p**d] replace ./a [a-z] X y
=
bad-tokens at byte 21
[a
p**d] replace ./a [^:] x y
=
bad-tokens at byte 21
[a
p**d] replace ./a [a\\z] a z
=
bad-tokens at byte 21
[a
p**d] replace ./a [a-z\\n] x y
=
bad-tokens at byte 21
[a
p**d] replace ./a [a-zé] x y
=
bad-tokens at byte 21
[a
p**d] replace ./a [] x y
=
bad-tokens at byte 21
[a
p**d] replace ./a [ x y
=
bad-tokens at byte 21
[a
p**d] replace ./a [x
=
bad-tokens at byte 20
[a
p**d] replace ./a
=
bad-preference at byte 20
[a
p**d] changepref test x

make
=
bad-preference at byte 20
[a
p**d] changepref test
=
bad-preference at byte 20
[a
p**d] changepref test
old
=
bad-preference at byte 19
[a
p**d] changepref
=
unsupported at byte 9
[a
p**d] merger 0.0";

fn read(alloc: Global, text: &str) -> Result<(Named<Global>, usize), ReadFault> {
    let limits = Limits::STANDARD.with_kinds(Kinds::All);
    read_named_within(alloc, text.as_bytes(), 0, limits)
}

/// Whether the text above the dash is written as the one below.
fn is_written(alloc: Global, row: &str) -> bool {
    let Some((text, written)) = row.split_once("\n-\n") else {
        return false;
    };
    let mut out = Vec::new(alloc);
    match read(alloc, text) {
        Ok((patch, _)) => {
            write_named(&patch, &mut out).is_ok()
                && out.strip_suffix(b"\n") == Some(written.as_bytes())
        }
        Err(_) => false,
    }
}

/// Whether the text below the first line has the fault that it tells.
fn has_fault(alloc: Global, row: &str) -> bool {
    let Some((fault, text)) = row.split_once('\n') else {
        return false;
    };
    match read(alloc, text) {
        Ok(_) => false,
        Err(e) => match format!(in alloc; "{e}") {
            Ok(told) => told.as_str() == fault,
            Err(_) => false,
        },
    }
}

#[test]
fn texts_are_read_and_written(rt: HostRuntime) {
    for row in READ.split("\n=\n") {
        assert!(rt; is_written(rt.alloc(), row), "{row}");
    }
}

#[test]
fn faults_are_told_at_their_places(rt: HostRuntime) {
    for row in FAULTS.split("\n=\n") {
        assert!(rt; has_fault(rt.alloc(), row), "{row}");
    }
}

#[test]
fn six_kinds_refuse_the_wider_words(rt: HostRuntime) {
    let text = "[a\np**d] { addfile ./a binary ./a oldhex newhex }";
    match read_named(rt.alloc(), text.as_bytes(), 0) {
        Ok(_) => assert!(rt; false, "six kinds"),
        Err(e) => assert!(rt; e.at == 23, "at the word"),
    }
}
