//! The words that say what is asked.

ghost use Rattle.std.specs.Prelude.{◌≡◌, cond};
ghost use Rattle.lines.specs.Verbs.{spells, office_verb, index_verb};

/// What an office asks for.
#[derive(Clone, Copy)]
pub enum OfficeVerb {
    Write,
    Off,
    Read,
    Look,
    Loan,
}

/// What is asked of an index.
#[derive(Clone, Copy)]
pub enum IndexVerb {
    Make,
    Up,
    Turn,
    Down,
    Fill,
    Clear,
    Rows,
}

/// Whether a word is this text.
pub fn spells(word: &[u8], text: &[u8]) -> bool
    ensures { result ≡ spells word.now text.now }
{
    word == text
}

/// What a word behind an office's number asks for, if it is one that does.
#[tactic(auto, using(crate::proofs::Spelled::others))]
pub fn office_verb(word: &[u8]) -> Option<OfficeVerb>
    ensures { result ≡ office_verb word.now }
{
    match word {
        b"write" => Some(OfficeVerb::Write),
        b"off" => Some(OfficeVerb::Off),
        b"read" => Some(OfficeVerb::Read),
        b"look" => Some(OfficeVerb::Look),
        b"loan" => Some(OfficeVerb::Loan),
        _ => None,
    }
}

/// What the first word of a line asks for that is no office's, if it is one that does.
#[tactic(auto, using(crate::proofs::Spelled::others))]
pub fn index_verb(word: &[u8]) -> Option<IndexVerb>
    ensures { result ≡ index_verb word.now }
{
    match word {
        b"make" => Some(IndexVerb::Make),
        b"up" => Some(IndexVerb::Up),
        b"turn" => Some(IndexVerb::Turn),
        b"down" => Some(IndexVerb::Down),
        b"fill" => Some(IndexVerb::Fill),
        b"clear" => Some(IndexVerb::Clear),
        b"rows" => Some(IndexVerb::Rows),
        _ => None,
    }
}
