// Whether a row's fields are as its kind uses them (cause 3).
ghost use Rattle.std.specs.Prelude.{◌≡◌};
ghost use Rattle.rules.specs.Row.{fields_fit_lem, is_unused, is_variable, uses_none_lem, uses_number_lem, uses_variable_lem, uses_function_lem, do_uses_lem, test_uses_lem};
ghost use Rattle.rules.specs.Given.{uses_switch_lem};

use rules::kind::Kind;
use rules::limits::VARIABLES;
use rules::operands::Operands;

fn unused(x: u8) -> bool
    ensures { result ≡ is_unused x }
{
    x == 0
}

fn variable(x: u8) -> bool
    ensures { result ≡ is_variable x }
{
    usize::from(x) < VARIABLES
}

fn uses_none(o: Operands) -> bool
    ensures { result ≡ uses_none_lem o }
{
    unused(o.op) && unused(o.p) && unused(o.q) && o.n == 0
}

fn uses_number(o: Operands) -> bool
    ensures { result ≡ uses_number_lem o }
{
    variable(o.p) && unused(o.q)
}

fn uses_variable(o: Operands) -> bool
    ensures { result ≡ uses_variable_lem o }
{
    variable(o.p) && variable(o.q) && o.n == 0
}

fn uses_function(o: Operands) -> bool
    ensures { result ≡ uses_function_lem o }
{
    unused(o.op) && unused(o.p) && unused(o.q)
}

// The fields of a switch (02, No. 1).
pub fn uses_switch(o: Operands) -> bool
    ensures { result ≡ uses_switch_lem o }
{
    unused(o.op) && variable(o.p) && unused(o.q) && o.n == 0
}

// The fields of a do.
pub fn do_uses(o: Operands) -> bool
    ensures { result ≡ do_uses_lem o }
{
    match o.op {
        0 => uses_number(o),
        1..=3 => uses_variable(o),
        _ => false,
    }
}

// The fields of an if or a loop.
fn test_uses(o: Operands) -> bool
    ensures { result ≡ test_uses_lem o }
{
    match o.op {
        0 | 1 => uses_number(o),
        2 => uses_variable(o),
        _ => false,
    }
}

// The fields of a row of this kind.
#[tactic(auto, unfolding(rules::specs::Row::fields_fit_lem))]
pub fn fields_fit(kind: Kind, o: Operands) -> bool
    ensures { result ≡ fields_fit_lem kind o }
{
    match kind {
        Kind::Function | Kind::Else | Kind::End | Kind::Break | Kind::Continue => uses_none(o),
        Kind::Do => do_uses(o),
        Kind::If | Kind::Loop => test_uses(o),
        Kind::Call => uses_function(o),
        Kind::Unknown => false,
    }
}
