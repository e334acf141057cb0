//! The worked cases of every layer, a net's calls among them: one table, and one theorem that each of its rows holds.

#![tactic(auto)]

ghost use Rattle.std.specs.Prelude.{◌≡◌, length};
ghost use Rattle.std.specs.List.{AllByRecursion};
ghost use Rattle.net_cases.specs.Table.{Holds, table};

/// Every row of the table in `specs/Table.antt` holds. Answers how many rows there are.
pub fn worked_cases() -> usize
    ensures every { AllByRecursion Holds table }
    ensures count { result ≡ length table }
{
    cases::worked_cases() + 8
}
