// What a do and a test do with the variables.
ghost use Rattle.std.specs.Prelude.{◌≡◌};
ghost use Rattle.rules.specs.Variables.{sum, difference, computed, holds_on};
ghost use Rattle.rules.specs.Bounds.{VariablesIn};

use rules::computed::Assigned;
use rules::limits::VARIABLES;
use rules::operands::Operands;

fn sum_of(p: u16, x: u16, y: u16) -> Option<Assigned>
    ensures { result ≡ sum p x y }
{
    Some((p, x.checked_add(y)?))
}

fn difference_of(p: u16, x: u16, y: u16) -> Option<Assigned>
    ensures { result ≡ difference p x y }
{
    Some((p, x.checked_sub(y)?))
}

// Which variable a do gives which number. All arithmetic on variables is here, for either run.
#[tactic(auto, unfolding(rules::specs::Variables::computed))]
pub fn compute(o: Operands, variables: &[u16; VARIABLES]) -> Option<Assigned>
    requires { VariablesIn o }
    ensures { result ≡ computed o variables.now }
{
    let p = o.p as u16;
    let q = o.q as usize;
    if o.op == 0 {
        return Some((p, o.n));
    }
    let y = variables[q];
    if o.op == 1 {
        return Some((p, y));
    }
    let x = variables[o.p as usize];
    if o.op == 2 {
        return sum_of(p, x, y);
    }
    difference_of(p, x, y)
}

#[tactic(auto, unfolding(rules::specs::Variables::holds_on))]
pub fn holds(o: Operands, variables: &[u16; VARIABLES]) -> bool
    requires { VariablesIn o }
    ensures { result ≡ holds_on o variables.now }
{
    let p = o.p as usize;
    let q = o.q as usize;
    let x = variables[p];
    if o.op == 0 {
        return x == o.n;
    }
    if o.op == 1 {
        return x != o.n;
    }
    x < variables[q]
}
