//! The worked cases of every layer: one table, and one theorem that each of its rows holds.

#![tactic(auto)]

ghost use Rattle.std.specs.Prelude.{◌≡◌, length};
ghost use Rattle.std.specs.List.{AllByRecursion};
ghost use Rattle.space.specs.declared.TheConstants.{LONGEST};
ghost use Rattle.seed.specs.declared.store.TheConstants.{NODES};
ghost use Rattle.cases.specs.Table.{Holds, table};

/// Every row of the table in `specs/Table.antt` holds. Answers how many rows there are.
pub fn worked_cases() -> usize
    ensures every { AllByRecursion Holds table }
    ensures count { result ≡ length table }
    ensures limits { (LONGEST ≡ 100000000) × (NODES ≡ 512) }
{
    13
}
