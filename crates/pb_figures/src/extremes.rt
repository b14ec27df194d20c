//! Where payments break C1 and C2 by most. The findings name the first place alone, so this is another pass over the
//! certificate, which is made only where there are more places.
ghost use Rattle.pb_election.specs.Instance.{IsProject, IsVoter};

use pb_certificate::{CertRefusal, PriceRow, Rows};
use pb_election::Election;
use pb_price::Findings;
use std::alloc::{AllocError, Global};

// How many grains one has of a numerator.
const GRAINS: u128 = 1_000_000;

/// The payments that break C1 and C2 by most. Amounts are in grains.
#[derive(Clone, Copy)]
pub struct Extremes {
    /// The largest payment for a project that its voter doesn't approve; of several that of the lowest voter, and there
    /// for the lowest project.
    pub unapproved: Option<Payment>,
    /// The voter that spends most, the lowest of several.
    pub spender: Option<Spender>,
}

/// What a voter pays for a project.
#[derive(Clone, Copy)]
pub struct Payment {
    pub voter: u32,
    pub project: u32,
    pub grains: u128,
}

/// What a voter pays for all projects.
#[derive(Clone, Copy)]
pub struct Spender {
    pub voter: u32,
    pub grains: u128,
}

impl Extremes {
    /// No payments.
    pub const NONE: Extremes = Extremes {
        unapproved: None,
        spender: None,
    };
}

/// Where the payments of a certificate, whose bytes were taken, break C1 and C2 by most. Where each of the two fails at
/// one place at most it isn't looked for.
pub fn extremes_of(
    alloc: Global,
    election: &Election,
    bytes: &[u8],
    findings: &Findings,
) -> Result<Extremes, AllocError> {
    if findings.c1.count < 2 && findings.c2.count < 2 {
        return Ok(Extremes::NONE);
    }
    // Bytes that were taken are refused only where memory runs out.
    match extremes_in(alloc, election, bytes) {
        Ok(extremes) => Ok(extremes),
        Err(_) => Err(AllocError),
    }
}

fn extremes_in(alloc: Global, election: &Election, bytes: &[u8]) -> Result<Extremes, CertRefusal> {
    let mut left = Rows::open(alloc, bytes, election)?;
    let mut pass = Pass::new();
    loop {
        let (behind, row) = left.next()?;
        left = behind;
        match row {
            Some(row) => pass.take(election, row),
            None => return Ok(pass.finish()),
        }
    }
}

// The extremes of the rows that were taken, which come by voter, without what the voter at hand spends.
#[derive(Clone, Copy)]
struct Pass {
    extremes: Extremes,
    at_hand: Spender,
}

impl Pass {
    fn new() -> Pass {
        Pass {
            extremes: Extremes::NONE,
            at_hand: Spender {
                voter: 0,
                grains: 0,
            },
        }
    }

    fn take(&mut self, election: &Election, row: PriceRow)
        requires voter { IsVoter election.now row.voter }
        requires project { IsProject election.now row.project }
    {
        let grains = row.payment.saturating_mul(GRAINS);
        if row.voter != self.at_hand.voter {
            self.close();
            self.at_hand = Spender {
                voter: row.voter,
                grains: 0,
            };
        }
        self.at_hand.grains = self.at_hand.grains.saturating_add(grains);
        let payment = Payment {
            voter: row.voter,
            project: row.project,
            grains,
        };
        if self.is_more(payment) && !election.approves(row.voter, row.project) {
            self.extremes.unapproved = Some(payment);
        }
    }

    // Whether a payment is more than the largest so far, or as much and of a lower voter, or of that one for a lower
    // project.
    fn is_more(&self, payment: Payment) -> bool {
        match self.extremes.unapproved {
            None => payment.grains > 0,
            Some(most) if payment.grains == most.grains => {
                payment.voter < most.voter
                    || (payment.voter == most.voter && payment.project < most.project)
            }
            Some(most) => payment.grains > most.grains,
        }
    }

    // Counts what the voter at hand spends.
    fn close(&mut self) {
        let most = self.extremes.spender.map_or(0, |spender| spender.grains);
        if self.at_hand.grains > most {
            self.extremes.spender = Some(self.at_hand);
        }
    }

    fn finish(mut self) -> Extremes {
        self.close();
        self.extremes
    }
}
