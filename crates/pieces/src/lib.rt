// The pieces of a string: each is a run, a tab, a newline, a control sequence or an extended segment.
#![tactic(auto)]

ghost use Rattle.std.specs.Prelude.{◌≡◌};
ghost use Rattle.base.specs.Choice.{from};
ghost use Rattle.element.specs.Element.{element_of};
ghost use Rattle.pieces.specs.Pieces.{kind_number, seen, is_run, side_kind_of, piece_kind_of, piece_of, set_on};

use base::kind;
use state::elements::Element;
use state::{Sets, State};

// What a piece is, each kind with its number.
#[derive(Clone, Copy, PartialEq, Eq)]
pub enum PieceKind {
    GlRun = 0,
    GrRun = 1,
    Tab = 2,
    Newline = 3,
    // a designation or a direction mark
    Control = 4,
    Segment = 5,
}

impl PieceKind {
    // The number of the kind.
    pub fn number(self) -> u8
        ensures { result ≡ kind_number self }
    {
        self as u8
    }

    pub fn is_run(self) -> bool
        ensures { result ≡ is_run (kind_number self) }
    {
        matches!(self, PieceKind::GlRun | PieceKind::GrRun)
    }
}

// Where a piece starts and where the next one does, the state after its first element, and what it is.
#[derive(Clone, Copy)]
pub struct Piece {
    pub start: usize,
    pub end: usize,
    pub state: State,
    pub kind: PieceKind,
}

// A run on the side of an octet.
#[tactic(auto, using(base::proofs::Ladder::ladder), unfolding(crate::specs::Pieces::side_kind_of))]
pub fn side_kind(b: u8) -> PieceKind
    ensures { kind_number result ≡ side_kind_of b }
{
    if b < 128 {
        PieceKind::GlRun
    } else {
        PieceKind::GrRun
    }
}

// What the piece of a unit is, by the unit's kind and its first octet.
#[tactic(auto, using(base::proofs::Ladder::ladder), unfolding(crate::specs::Pieces::piece_kind_of))]
pub fn piece_kind(unit: u8, b: u8) -> PieceKind
    ensures { kind_number result ≡ piece_kind_of unit b }
{
    match unit {
        kind::CHARACTER | kind::SPACE => side_kind(b),
        kind::TAB => PieceKind::Tab,
        kind::NEWLINE => PieceKind::Newline,
        kind::SEGMENT => PieceKind::Segment,
        _ => PieceKind::Control,
    }
}

// The piece that the element at a place is; none where the string ends, or its element is refused.
pub fn piece_at(s: &[u8], at: usize, st: State) -> Option<Piece>
    ensures { seen at result ≡ piece_of s.now at (element_of (from at s.now) st) }
{
    if s.len() <= at {
        return None;
    }
    let b = s[at];
    match element::element(s, at, st) {
        Ok(Element::End) => None,
        Err(_) => None,
        Ok(Element::Silent(octets, next)) => Some(Piece {
            start: at,
            end: at + octets,
            state: next,
            kind: PieceKind::Control,
        }),
        Ok(Element::Found(part, after)) => {
            let size = part.skip + part.octets;
            Some(Piece {
                start: at,
                end: at + size,
                state: after,
                kind: piece_kind(part.kind, b),
            })
        }
    }
}

// The set on the side of a run, by the number of its kind; any other number is taken for a GR run's.
#[tactic(auto, using(base::proofs::Ladder::ladder))]
pub fn set_in(sets: Sets, kind: u8) -> u8
    ensures { result ≡ set_on sets kind }
{
    if kind == PieceKind::GlRun.number() {
        sets.gl
    } else {
        sets.gr
    }
}
