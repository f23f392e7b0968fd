//! Names at the front of a text.
ghost use Rattle.std.specs.Prelude.{◌≡◌, map};
ghost use Rattle.std.specs.Option.{option_copied};
ghost use Rattle.dm_date.specs.Names.{day_name, month_name, name, one_of, zone_name};

#[tactic(auto, unfolding(crate::specs::Names::name))]
pub(crate) fn name<'a>(letters: &[u8], text: &'a [u8]) -> Option<&'a [u8]>
    ensures { option_copied result ≡ name letters.now text.now }
{
    let mut rest = text;
    for letter in letters {
        let [first, after @ ..] = rest else {
            return None;
        };
        if !first.eq_ignore_ascii_case(letter) {
            return None;
        }
        rest = after;
    }
    Some(rest)
}

#[tactic(auto, unfolding(crate::specs::Names::one_of))]
fn one_of<'a>(names: &[&[u8]], text: &'a [u8]) -> Option<&'a [u8]>
    ensures { option_copied result ≡ one_of (map (λ x. x.now) names.now) text.now }
{
    for first in names {
        if let Some(rest) = name(first, text) {
            return Some(rest);
        }
    }
    None
}

#[tactic(auto, unfolding(crate::specs::Names::day_name))]
pub(crate) fn day_name(text: &[u8]) -> Option<&[u8]>
    ensures { option_copied result ≡ day_name text.now }
{
    one_of(
        &[b"Mon", b"Tue", b"Wed", b"Thu", b"Fri", b"Sat", b"Sun"],
        text,
    )
}

#[tactic(auto, unfolding(crate::specs::Names::month_name))]
pub(crate) fn month_name(text: &[u8]) -> Option<&[u8]>
    ensures { option_copied result ≡ month_name text.now }
{
    one_of(
        &[
            b"Jan", b"Feb", b"Mar", b"Apr", b"May", b"Jun", b"Jul", b"Aug", b"Sep", b"Oct", b"Nov",
            b"Dec",
        ],
        text,
    )
}

/// What follows the name of a zone that Darcs knows.
#[tactic(auto, unfolding(crate::specs::Names::zone_name))]
pub(crate) fn zone_name(text: &[u8]) -> Option<&[u8]>
    ensures { option_copied result ≡ zone_name text.now }
{
    one_of(
        &[
            b"UTC", b"UT", b"GMT", b"WET", b"WEST", b"BST", b"ART", b"BRT", b"BRST", b"AST",
            b"ADT", b"CLT", b"CLST", b"EST", b"EDT", b"CST", b"CDT", b"MST", b"MDT", b"PST",
            b"PDT", b"AKST", b"AKDT", b"HST", b"HAST", b"HADT", b"SST", b"WAT", b"CET", b"CEST",
            b"MET", b"MEZ", b"MEST", b"MESZ", b"EET", b"EEST", b"CAT", b"SAST", b"EAT", b"MSK",
            b"MSD", b"SGT", b"KST", b"JST", b"GST", b"NZST", b"NZDT",
        ],
        text,
    )
}
