ghost use Rattle.std.specs.Prelude.{ℕ, IfErr, IfOk, MatchOption, option_copied};
ghost use Rattle.walk_laws.specs.Walk.{LawfulAllowance};
ghost use Rattle.input.specs.Arguments.{Costs, Refuses, Says, Unlawful};

use crate::numbers;
use thiserror::Error;
use walk::Allowance;

const DEFAULT_PRICE: u32 = 40;

const DEFAULT_RATIO: (u32, u32) = (1, 4);

/// An argument that is not of its form.
#[derive(Clone, Copy, Debug, PartialEq, Eq, Error)]
pub enum BadArgument {
    /// The price is no number from 0 to 4,294,967,295.
    #[error("the price is not a number from 0 to 4294967295")]
    Price,
    /// The allowance is not p/q with p from 0 to 1,000 and q from 1 to 1,000.
    #[error("the allowance is not p/q with p from 0 to 1000 and q from 1 to 1000")]
    Allowance,
}

/// The price of a lift, 40 where none is given, and the allowance, 1/4 where none is given.
#[derive(Clone, Copy)]
pub struct Arguments {
    /// The price of a lift for each level, in units of distance.
    pub price: u32,
    /// How much longer than its direct distance a sink's path may be.
    pub allowance: Allowance,
}

/// The price that the text writes.
fn price_of(text: Option<&str>) -> Option<u32>
    ensures { MatchOption result
        ((n : ℕ) → Costs (option_copied text.entry) n → ⊥)
        (Costs (option_copied text.entry)) }
{
    text.map_or(Some(DEFAULT_PRICE), numbers::price)
}

/// The allowance that the text writes.
fn allowance_of(text: Option<&str>) -> Option<Allowance>
    ensures { MatchOption result
        (Unlawful (option_copied text.entry))
        (λ a. Says (option_copied text.entry) a.p a.q × LawfulAllowance a.p a.q) }
{
    let (p, q) = text.map_or(Some(DEFAULT_RATIO), numbers::ratio)?;
    Allowance::new(u64::from(p), u64::from(q))
}

impl Arguments {
    /// The arguments that the two texts write; refused where one of them writes none, the price first.
    pub fn new(price: Option<&str>, ratio: Option<&str>) -> Result<Arguments, BadArgument>
        ensures price { IfOk result (λ a. Costs (option_copied price.entry) a.price) }
        ensures allowance { IfOk result (λ a.
            Says (option_copied ratio.entry) a.allowance.p a.allowance.q) }
        ensures lawful { IfOk result (λ a. LawfulAllowance a.allowance.p a.allowance.q) }
        ensures refused { IfErr result
            (Refuses (option_copied price.entry) (option_copied ratio.entry)) }
    {
        let price = price_of(price).ok_or(BadArgument::Price)?;
        let allowance = allowance_of(ratio).ok_or(BadArgument::Allowance)?;
        Ok(Arguments { price, allowance })
    }
}
