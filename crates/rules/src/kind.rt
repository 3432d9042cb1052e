// What the kind byte of a row says (01, "The source table").
ghost use Rattle.std.specs.Prelude.{◌≡◌};
ghost use Rattle.rules.specs.Row.{kind_of};

// The kind bytes.
pub const FUNCTION: u8 = 0x01;

pub const DO: u8 = 0x02;

pub const IF: u8 = 0x03;

pub const ELSE: u8 = 0x04;

pub const LOOP: u8 = 0x05;

pub const END: u8 = 0x06;

pub const BREAK: u8 = 0x07;

pub const CONTINUE: u8 = 0x08;

pub const CALL: u8 = 0x09;

#[derive(Clone, Copy, PartialEq, Eq)]
pub enum Kind {
    Function,
    Do,
    If,
    Else,
    Loop,
    End,
    Break,
    Continue,
    Call,
    // Of no kind, or with a wrong field. A case and no None: the definitions go over the kinds with it (specs/Row.antt).
    Unknown,
}

impl From<u8> for Kind {
    ghost from_gives = { λ byte kind. kind ≡ kind_of byte };

    #[tactic(auto, unfolding(crate::specs::Row::kind_of))]
    fn from(byte: u8) -> Kind {
        match byte {
            FUNCTION => Kind::Function,
            DO => Kind::Do,
            IF => Kind::If,
            ELSE => Kind::Else,
            LOOP => Kind::Loop,
            END => Kind::End,
            BREAK => Kind::Break,
            CONTINUE => Kind::Continue,
            CALL => Kind::Call,
            _ => Kind::Unknown,
        }
    }
}
