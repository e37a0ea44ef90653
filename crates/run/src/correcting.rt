ghost use Rattle.std.specs.Prelude.{◌≡◌, IfErr, OnErr};
ghost use Rattle.model.specs.Calls.{call, Open, Read, Write, File, Withdraw, OfOpening, OfReading, OfAcceptance};
ghost use Rattle.run.specs.Runs.{state};
ghost use Rattle.run.specs.Slips.{numbers_of, opening, filing};
ghost use Rattle.table.specs.Settings.{Through};

use crate::run::Run;
use crate::slip::{Slip, Unfiled};
use model::Refusal;
use store::Store;

impl<S: Store> Run<S> {
    // Opens a correction and gives its slip.
    pub fn open_correction(&mut self) -> Result<Slip, Refusal>
        ensures next { state S.Store.cells self.new ≡ (call (state S.Store.cells self.old) Open).next }
        ensures answer { OfOpening (opening result) ≡ (call (state S.Store.cells self.old) Open).answer }
        ensures store { self.new.store ≡ self.old.store }
    {
        let numbers = self.table.open_correction()?;
        Ok(Slip { numbers })
    }

    // Reads a cell for a correction, from its logs or else from the store.
    pub fn read(&mut self, slip: &Slip, cell: u32) -> Result<u32, Refusal>
        ensures next { state S.Store.cells self.new ≡ (call (state S.Store.cells self.old) (Read (numbers_of slip.now) cell)).next }
        ensures answer { OfReading result ≡ (call (state S.Store.cells self.old) (Read (numbers_of slip.now) cell)).answer }
        ensures store { self.new.store ≡ self.old.store }
    {
        self.table.read(slip.numbers, &self.store, cell)
    }

    // Writes a number for a cell into the logs of a correction. No cell is set before the filing.
    pub fn write(&mut self, slip: &Slip, cell: u32, number: u32) -> Result<(), Refusal>
        ensures next { state S.Store.cells self.new ≡ (call (state S.Store.cells self.old) (Write (numbers_of slip.now) cell number)).next }
        ensures answer { OfAcceptance result ≡ (call (state S.Store.cells self.old) (Write (numbers_of slip.now) cell number)).answer }
        ensures store { self.new.store ≡ self.old.store }
    {
        self.table.write(slip.numbers, &self.store, cell, number)
    }

    // Files a correction: sets each of its written cells once, the lowest first, removes all marks and joins the commit
    // order. Refused, it gives the slip back and leaves the very store.
    pub fn file(&mut self, slip: Slip) -> Result<(), Unfiled>
        ensures next { state S.Store.cells self.new ≡ (call (state S.Store.cells self.old) (File (numbers_of slip))).next }
        ensures answer { OfAcceptance (filing result) ≡ (call (state S.Store.cells self.old) (File (numbers_of slip))).answer }
        ensures unspent { IfErr result (λ u. u.slip ≡ slip) }
        ensures loan { S.Store.loan self.new.store ≡ S.Store.loan self.old.store }
        ensures store { Through S.Store.sets (call (state S.Store.cells self.old) (File (numbers_of slip))).events self.old.store self.new.store }
        ensures refused { OnErr result (self.new.store ≡ self.old.store) }
    {
        match self.table.file(slip.numbers, &mut self.store) {
            Ok(()) => {
                let _ = slip.discard();
                Ok(())
            }
            Err(refusal) => Err(Unfiled { slip, refusal }),
        }
    }

    // Closes a correction without setting a cell. It spends the slip, also where it is refused.
    pub fn withdraw(&mut self, slip: Slip) -> Result<(), Refusal>
        ensures next { state S.Store.cells self.new ≡ (call (state S.Store.cells self.old) (Withdraw (numbers_of slip))).next }
        ensures answer { OfAcceptance result ≡ (call (state S.Store.cells self.old) (Withdraw (numbers_of slip))).answer }
        ensures store { self.new.store ≡ self.old.store }
    {
        let withdrawn = self.table.withdraw(slip.numbers);
        let _ = slip.discard();
        withdrawn
    }
}
