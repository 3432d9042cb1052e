// The kinds of line.
ghost use Rattle.std.specs.Prelude.{◌≡◌};
ghost use Rattle.line.specs.Read.{line_kind_of};

use crate::Line;

#[derive(Clone, Copy, PartialEq, Eq)]
pub enum LineKind {
    Do,
    Tick,
    Test,
    Leave,
    Out,
    Call,
    Back,
    Ret,
}

// Bytes of no kind are read as a ret, and are then no hardened table.
impl From<u8> for LineKind {
    ghost from_gives = { λ b kind. kind ≡ line_kind_of b };

    #[tactic(auto, unfolding(crate::specs::Read::line_kind_of))]
    fn from(b: u8) -> LineKind {
        match b {
            Line::DO => LineKind::Do,
            Line::TICK => LineKind::Tick,
            Line::TEST => LineKind::Test,
            Line::LEAVE => LineKind::Leave,
            Line::OUT => LineKind::Out,
            Line::CALL => LineKind::Call,
            Line::BACK => LineKind::Back,
            _ => LineKind::Ret,
        }
    }
}
