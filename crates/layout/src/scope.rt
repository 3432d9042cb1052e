// Where a row stands: what the rows before it have opened. The map has a scope for each row and for the end of the table.
ghost use Rattle.std.specs.Prelude.{◌≡◌, suc, ◌/◌, ◌≤◌, ◌<◌, length};
ghost use Rattle.rules.specs.Limits.{max_rows, max_lines};
ghost use Rattle.rules.specs.Verdict.{Accepted};
ghost use Rattle.rules.specs.Row.{table_of};
ghost use Rattle.rules.specs.Check.{verdict_of};
ghost use Rattle.layout.specs.Scope.{map_scopes, scope_of, passed, entered, forked, looped, turned, closed, Mapped, Stands, Surveyed};

use crate::row;
use rules::kind::Kind;
use rules::limits::ROWS;

// The scopes of a map.
pub const MAP: usize = ROWS + 1;

#[derive(Clone, Copy)]
pub struct Scope {
    // Regions opened so far, in the whole table.
    pub opened: u16,
    // The innermost open region, and that of the function's body.
    pub region: u16,
    pub body: u16,
    // The row that opened it, and the row of the innermost loop.
    pub opener: u16,
    pub repeat: u16,
    // The number of the row's first line.
    pub line: u16,
}

impl Scope {
    // The scope of row 0: nothing is open.
    pub const OUTERMOST: Scope = Scope {
        opened: 0,
        region: 0,
        body: 0,
        opener: 0,
        repeat: 0,
        line: 0,
    };
}

// The scope of the next row, after a row of each shape.
impl Scope {
    // After a row that opens nothing and closes nothing.
    fn passed(self, lines: u16) -> Scope
        requires { (self.line ≤ max_lines) × (lines ≤ 2) }
        ensures { result ≡ passed self lines }
    {
        Scope {
            line: self.line + lines,
            ..self
        }
    }

    // After a function row.
    fn entered(self, row: u16) -> Scope
        requires { self.opened ≤ max_rows }
        ensures { result ≡ entered self row }
    {
        Scope {
            opened: self.opened + 1,
            region: self.opened,
            body: self.opened,
            opener: row,
            ..self
        }
    }

    // After an if row.
    fn forked(self, row: u16) -> Scope
        requires { (self.opened ≤ max_rows) × (self.line ≤ max_lines) }
        ensures { result ≡ forked self row }
    {
        Scope {
            opened: self.opened + 1,
            region: self.opened,
            opener: row,
            line: self.line + 1,
            ..self
        }
    }

    // After a loop row.
    fn looped(self, row: u16) -> Scope
        requires { (self.opened ≤ max_rows) × (self.line ≤ max_lines) }
        ensures { result ≡ looped self row }
    {
        Scope {
            opened: self.opened + 1,
            region: self.opened,
            opener: row,
            repeat: row,
            line: self.line + 1,
            ..self
        }
    }

    // After an else row.
    fn turned(self) -> Scope
        requires { (self.opened ≤ max_rows) × (self.line ≤ max_lines) }
        ensures { result ≡ turned self }
    {
        Scope {
            opened: self.opened + 1,
            region: self.opened,
            line: self.line + 1,
            ..self
        }
    }

    // After an end row: what is open is what was open at the row that opened, whose scope this is.
    fn closed(self, opener: Scope) -> Scope
        requires { self.line ≤ max_lines }
        ensures { result ≡ closed self opener }
    {
        Scope {
            opened: self.opened,
            line: self.line + 1,
            ..opener
        }
    }
}

// The scope of row i of a table that is surveyed.
pub fn stand(rows: &[u8], map: &[Scope], i: usize) -> Scope
    requires { (Surveyed rows.now map.now) × (i ≤ length rows.now / 6) }
    ensures { Stands rows.now i result }
{
    map[i]
}

// The scope of the row after row i.
pub fn after(rows: &[u8], map: &[Scope], i: usize, here: Scope) -> Scope
    requires stands { (Stands rows.now i here) × (i < length rows.now / 6) }
    requires mapped { (Mapped rows.now map.now (suc i)) × (i < length map.now) }
    ensures { result ≡ scope_of (table_of rows.now) (suc i) }
{
    let row = i as u16;
    match row::kind(rows, i) {
        Kind::Function => here.entered(row),
        Kind::Do | Kind::Call => here.passed(2),
        Kind::If => here.forked(row),
        Kind::Else => here.turned(),
        Kind::Loop => here.looped(row),
        Kind::End => here.closed(map[usize::from(here.opener)]),
        Kind::Break | Kind::Continue => here.passed(1),
        Kind::Unknown => here.passed(0),
    }
}

// Fills the map with the scope of each row, and of the end of the table.
pub fn survey(rows: &[u8], map: &mut [Scope])
    requires { (verdict_of rows.now ≡ Accepted) × (map_scopes ≤ length map.old) }
    ensures { Surveyed rows.now map.new }
{
    let n = rows.len() / row::WIDTH;
    let mut here = Scope::OUTERMOST;
    for i in 0..n {
        map[i] = here;
        here = after(rows, map, i, here);
    }
    map[n] = here;
}
