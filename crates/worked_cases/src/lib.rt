// Worked cases of the rules: a table in specs/, and one proof that every row of it holds of the definitions.
#![tactic(auto)]

#[cfg(test)]
mod expected;
#[cfg(test)]
mod tests;

ghost use Rattle.std.specs.Prelude.{◌≡◌, true, length};
ghost use Rattle.worked_cases.specs.Cases.{cases, every};

// How many worked cases there are; all of them hold.
pub fn number_of_cases() -> usize
    ensures number { result ≡ length cases }
    ensures every_case_holds { every cases ≡ true }
{
    21
}
