// What a frame gets of a rate: its budgets, rounded or carried from frame to frame, and the parts that are carried on.
#![tactic(auto)]

ghost use Rattle.std.specs.Prelude.{◌≡◌, true, ◌<◌};
ghost use Rattle.model.specs.Said.{mapped, checked};
ghost use Rattle.model.specs.Rate.{valid_carry, going_on, carried_at, share_by};
ghost use Rattle.writer_shares.specs.Share.{carry_of, share_of};
ghost use Rattle.caption.specs.Answers.{outcome};

use basics::{MOST_TRIPLES, PAIRS_A_SECOND, TRIPLES_A_SECOND, cut};
use caption::{Framerate, Refusal};

/// The carried parts: the rate of the running sum, and what the sum has left over of the pairs and of the triples, in parts of `numer`.
#[derive(Clone, Copy)]
pub struct Carry {
    pub numer: u32,
    pub denom: u32,
    pub pairs: u32,
    pub triples: u32,
}

/// What a frame gets of a rate: its budgets, and the parts that are carried on.
#[derive(Clone, Copy)]
pub struct Share {
    pub pairs: usize,
    pub triples: usize,
    pub carry: Carry,
}

impl Carry {
    /// No parts: a sum starts afresh.
    pub const NONE: Carry = Carry {
        numer: 0,
        denom: 0,
        pairs: 0,
        triples: 0,
    };

    /// Whether both rests are below the numerator, or all four parts are 0 [G7].
    pub fn is_valid(self) -> bool
        ensures { result ≡ valid_carry (carry_of self) }
    {
        if self.pairs < self.numer {
            return self.triples < self.numer;
        }
        let rates = self.numer as usize + self.denom as usize;
        let rests = self.pairs as usize + self.triples as usize;
        rates + rests == 0
    }

    /// What a frame gets of a rate, carried or rounded [G4] [G6]: 11 for parts that break a limit,
    /// 8 for a rate without budgets.
    pub fn share(self, carrying: bool, rate: Framerate) -> Result<Share, Refusal>
        ensures { mapped share_of (outcome result)
            ≡ checked (valid_carry (carry_of self)) (share_by carrying rate.numer rate.denom (carry_of self)) }
    {
        if !self.is_valid() {
            return Err(Refusal::BadValue);
        }
        let budgets = rate.budgets()?;
        if carrying {
            return self.carried_share(rate);
        }
        Ok(Share {
            pairs: budgets.pairs,
            triples: budgets.triples,
            carry: self,
        })
    }

    // The parts that go on at a rate: none at another than the sum's [G5].
    fn going_on(self, rate: Framerate) -> Carry
        ensures { carry_of result ≡ going_on rate.numer rate.denom (carry_of self) }
    {
        if self.numer == rate.numer {
            if self.denom == rate.denom {
                return self;
            }
        }
        Carry::NONE
    }

    // What a frame gets in the carrying mode of a rate that has budgets.
    fn carried_share(self, rate: Framerate) -> Result<Share, Refusal>
        requires { (valid_carry (carry_of self) ≡ true) × (0 < rate.numer) }
        ensures { mapped share_of (outcome result) ≡ carried_at rate.numer rate.denom (carry_of self) }
    {
        let numer = rate.numer as usize;
        let denom = rate.denom as usize;
        if MOST_TRIPLES * numer < TRIPLES_A_SECOND * denom {
            return Err(Refusal::BadRate);
        }
        let on = self.going_on(rate);
        let pairs = cut(on.pairs as usize + PAIRS_A_SECOND * denom, rate.numer);
        let triples = cut(on.triples as usize + TRIPLES_A_SECOND * denom, rate.numer);
        Ok(Share {
            pairs: pairs.count,
            triples: triples.count,
            carry: Carry {
                numer: rate.numer,
                denom: rate.denom,
                pairs: pairs.rest as u32,
                triples: triples.rest as u32,
            },
        })
    }
}
