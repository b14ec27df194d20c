//! What takes the payments of a price certificate, one voter after the other.
ghost use Rattle.std.specs.Prelude.{◌≡◌, ◌+◌, length, OnOk};
ghost use Rattle.pb_election.specs.Instance.{Instance};
ghost use Rattle.pb_certificate.specs.Inside.Prices.PaymentSinks.{CanTake, with_voter};
ghost use Rattle.pb_certificate.specs.Prices.{Prices};

use pb_records::RaggedArray;
use std::alloc::AllocError;

/// What takes the payments of one voter after the other.
pub trait PaymentSink {
    // For this election, it has these prices so far, with the payments of the first voters alone.
    ghost Has: { Self → Instance → Prices → Type 0 };

    /// Takes the payments of the next voter, whose number this is: the projects, rising, each with the numerator, which
    /// is not 0. After an error, which means out of memory, it is left open what it has.
    fn take(&mut self, voter: u32, payments: &[(u32, u128)]) -> Result<(), AllocError>
        requires { CanTake (Has self.old) voter payments.now }
        ensures { (e : Instance) (p : Prices) → Has self.old e p → voter ≡ length p.payments + 1 → OnOk result (Has self.new e (with_voter p payments.now)) };
}

impl PaymentSink for RaggedArray<(u32, u128)> {
    ghost Has = { λ runs e p. runs ≡ p.payments };

    fn take(&mut self, _voter: u32, payments: &[(u32, u128)]) -> Result<(), AllocError> {
        self.push(payments)
    }
}
