// Literals of a variable by its number.
ghost use Rattle.std.specs.Prelude.{◌≡◌, true, false};

use cnf::Literal;

// The variable itself.
pub fn pos(variable: u32) -> Literal
    ensures { result ≡ record { variable = variable; negated = false } }
{
    Literal {
        variable,
        negated: false,
    }
}

// The complement of the variable.
pub fn neg(variable: u32) -> Literal
    ensures { result ≡ record { variable = variable; negated = true } }
{
    Literal {
        variable,
        negated: true,
    }
}
