//! The payments of a price certificate, gathered by voter as its rows come.
ghost use Rattle.std.specs.Prelude.{◌≡◌, ◌≤◌, ◌<◌, ◌+◌, ◌-◌, ◌^◌, ◌⊎◌, ◌++◌, ◌∷◌, List, [], IfErr, OnOk};
ghost use Rattle.pb_election.specs.Instance as spec;
ghost use Rattle.pb_records.specs.FirstFault.{IsFirstFault};
ghost use Rattle.pb_certificate.specs.Faults.{no_memory, price_form};
ghost use Rattle.pb_certificate.specs.Inside.Prices.Gathering.{GathersAll, HoldSome, Holds, HoldsAll, WhereNew, prices_up_to};
ghost use Rattle.pb_certificate.specs.Prices.RowFaults.{as_payment};
ghost use Rattle.pb_certificate.specs.Prices.Text.{Payment};
ghost use Rattle.pb_certificate.specs.Prices.Rows.{given, Rows as Place};
ghost use Rattle.pb_certificate.specs.Prices.{most_numerator};

use crate::prices::payment_sink::PaymentSink;
use crate::{CertRefusal, PriceRow, Rows};
use std::alloc::{AllocError, Global};

/// The voter whose rows come. Rows come by voter, so only one voter's payments have yet to be put in order.
#[derive(Drop)]
struct Turn {
    // How many voters are done.
    done: u32,
    // What the next voter pays, as its rows came: projects with numerators that are not 0.
    payments: Vec<(u32, u128)>,
}

impl Turn {
    // Hands on the payments of the voter at hand, in order, and goes on to the next.
    fn close<L: PaymentSink>(&mut self, sink: &mut L) -> Result<(), AllocError>
        requires some { HoldSome (L.Has sink.old) self.old }
        requires room { self.old.done + 1 < 2 ^ 32 }
        ensures holds { (s : Place) (qs : List Payment) → Holds (L.Has sink.old) s qs self.old → OnOk result (Holds (L.Has sink.new) s qs self.new) }
        ensures done { OnOk result (self.new.done ≡ self.old.done + 1) }
    {
        self.payments.sort_unstable_by_key(|payment| payment.0);
        sink.take(self.done + 1, &self.payments)?;
        self.payments.clear();
        self.done += 1;
        Ok(())
    }

    // Goes on until so many voters are done.
    fn close_up_to<L: PaymentSink>(&mut self, sink: &mut L, voters: u32) -> Result<(), AllocError>
        requires some { HoldSome (L.Has sink.old) self.old }
        requires voters { self.old.done ≤ voters }
        ensures holds { (s : Place) (qs : List Payment) → Holds (L.Has sink.old) s qs self.old → OnOk result (Holds (L.Has sink.new) s qs self.new) }
        ensures done { OnOk result (self.new.done ≡ voters) }
    {
        while self.done < voters {
            self.close(sink)?;
        }
        Ok(())
    }

    // Adds a row, behind the rows of the voters before it and of its own.
    fn add<L: PaymentSink>(&mut self, sink: &mut L, row: PriceRow) -> Result<(), AllocError>
        requires some { HoldSome (L.Has sink.old) self.old }
        requires voter { 1 ≤ row.voter }
        requires done { self.old.done ≤ row.voter - 1 }
        requires project { 1 ≤ row.project }
        requires small { row.payment ≤ most_numerator }
        ensures holds { (s : Place) (qs : List Payment) → Holds (L.Has sink.old) s qs self.old → WhereNew s qs (as_payment row) (OnOk result (Holds (L.Has sink.new) s (qs ++ as_payment row ∷ []) self.new)) }
        ensures done { OnOk result (self.new.done ≡ row.voter - 1) }
    {
        self.close_up_to(sink, row.voter - 1)?;
        if row.payment > 0 {
            self.payments.push((row.project, row.payment))?;
        }
        Ok(())
    }
}

// Adds all rows, or tells the first fault.
fn add_all<L: PaymentSink>(mut rows: Rows, sink: &mut L, turn: &mut Turn) -> Result<(), CertRefusal>
    requires none { given rows ≡ [] }
    requires holds { Holds (L.Has sink.old) rows [] turn.old }
    requires done { turn.old.done ≡ 0 }
    ensures all { OnOk result (HoldsAll (L.Has sink.new) rows.entry turn.new) }
    ensures refused { IfErr result (λ r. (r ≡ no_memory) ⊎ IsFirstFault (price_form (rows.entry).election) (rows.entry).records r.record_number r.fault) }
{
    'gather: loop {
        let (behind, row) = rows.next()?;
        rows = behind;
        let Some(row) = row else {
            return Ok(());
        };
        turn.add(sink, row)?;
    }
}

/// Hands the payments of all rows, for so many voters, to a sink that has none yet, or tells the first fault. After
/// an error it is left open what the sink has.
pub fn gather<L: PaymentSink>(
    alloc: Global,
    rows: Rows,
    voters: u32,
    sink: &mut L,
) -> Result<(), CertRefusal>
    requires none { given rows ≡ [] }
    requires empty { L.Has sink.old rows.election (prices_up_to rows [] 0) }
    requires voters { voters ≡ spec.voters rows.election }
    ensures all { OnOk result (GathersAll (L.Has sink.new) rows.entry) }
    ensures refused { IfErr result (λ r. (r ≡ no_memory) ⊎ IsFirstFault (price_form (rows.entry).election) (rows.entry).records r.record_number r.fault) }
{
    let mut turn = Turn {
        done: 0,
        payments: Vec::new(alloc),
    };
    add_all(rows, sink, &mut turn)?;
    turn.close_up_to(sink, voters)?;
    Ok(())
}
