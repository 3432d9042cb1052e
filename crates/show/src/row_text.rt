// A step of a source run as `show` lists it before it is made: the running function, the row, and the row's kind.
ghost use Rattle.layout.specs.Spot.{Inside};

use crate::front;
use console::sheet::Sheet;
use layout::row;
use rules::kind::Kind;
use state::machine::Registers;

fn name(kind: Kind) -> &'static str {
    match kind {
        Kind::Function => " function\n",
        Kind::Do => " do\n",
        Kind::If => " if\n",
        Kind::Else => " else\n",
        Kind::Loop => " loop\n",
        Kind::End => " end\n",
        Kind::Break => " break\n",
        Kind::Continue => " continue\n",
        Kind::Call => " call\n",
        Kind::Unknown => " unknown\n",
    }
}

pub fn list<S: Sheet>(rows: &[u8], h: Registers, page: &mut S)
    requires { Inside rows.now h.at }
{
    let kind = row::kind(rows, usize::from(h.at));
    front::list(h, b" row ", h.at, page);
    page.word(name(kind).as_bytes());
}
