ghost use Rattle.std.specs.Prelude.{All, Contains, ◌↔◌, ◌≡◌, [], IfOk, IfErr};
ghost use Rattle.nogood_pool.specs.Seats.{IsSeatOf, SeatPublishes, view_of};
ghost use Rattle.fapp_model.specs.declared.instance.Instance.{Instance};
ghost use Rattle.search_log.specs.Shares.{IsCiteOf, IsOffer, LooksUp, OffersRow};
ghost use Rattle.pool_rows.specs.Copying.{IsLookUp, all_known};
ghost use Rattle.pool_rows.specs.PoolRows.{AreLater, state_of_rows};
ghost use Rattle.row_copies.specs.Filed.{known_cites};

use crate::rows::{PoolRows, SeatBack};
use crate::take::{ask_missing, ask_new};
use fapp_model::{Literal, Tag};
use nogood::{Partial, Published};
use nogood_pool::{Pool, PoolSeat};
use row_copies::Copies;
use search_log::{Cite, Shared};
use std::alloc::Global;

impl<'a> PoolRows<'a> {
    /// No copy yet. Room for a copy of each row of the pool is made here. Where there is none, the
    /// seat comes back as it was.
    pub fn new(alloc: Global, pool: &'a Pool, seat: PoolSeat) -> Result<PoolRows<'a>, SeatBack>
        requires own { IsSeatOf pool.now seat }
        ensures ok { IfOk result (λ rows. (rows.copies.cites ≡ []) × (rows.seat ≡ seat)
            × (rows.pool.now ≡ pool.now)) }
        ensures err { IfErr result (λ back. back.seat ≡ seat) }
    {
        let rows = pool.rows();
        let Ok(copies) = Copies::new(alloc, rows) else {
            return Err(SeatBack { seat });
        };
        let Ok(missing) = Vec::with_capacity(alloc, rows as usize) else {
            return Err(SeatBack { seat });
        };
        let Ok(spare) = Vec::with_capacity(alloc, rows as usize) else {
            return Err(SeatBack { seat });
        };
        Ok(PoolRows {
            pool,
            seat,
            copies,
            next: 0,
            missing,
            spare,
        })
    }

    /// The seat, which saw each row that was copied.
    pub fn into_seat(self) -> PoolSeat
        ensures seat { result ≡ self.entry.seat }
        ensures own { IsSeatOf self.entry.pool.now result }
        ensures copied { All (Contains (all_known (view_of result).seen))
            (known_cites self.entry.copies.cites) }
    {
        self.seat
    }
}

impl<'a> Shared for PoolRows<'a> {
    ghost use Rattle.nogood_pool.specs.Seats.{view_of as view_by};
    ghost use Rattle.pool_rows.specs.PoolRows.{AreLater as are_later, state_of_rows as state_by};

    ghost state = { state_by };

    ghost serves = { λ rows instance. (view_by rows.seat).instance ≡ instance };

    ghost since = { are_later };

    fn lookup(&mut self, part: &Partial, target: Tag) -> Option<Cite>
        ensures looks { LooksUp (state_of_rows self.old) (state_of_rows self.new) part.now
            target.code result }
        ensures serves { (instance : Instance) →
            ((view_of self.old.seat).instance ≡ instance)
            ↔ ((view_of self.new.seat).instance ≡ instance) }
        ensures look_up { IsLookUp (view_of self.old.seat) (view_of self.new.seat)
            self.old.copies.cites self.new.copies.cites }
        ensures implied { (instance : Instance) → (view_of self.old.seat).instance ≡ instance →
            IsCiteOf instance result }
        ensures since { (was : _) → AreLater was self.old → AreLater was self.new }
    {
        let count = self.pool.count(&mut self.seat) as u32;
        ask_missing(
            self.pool,
            &mut self.seat,
            &mut self.copies,
            self.next,
            &mut self.missing,
            &mut self.spare,
        );
        ask_new(
            self.pool,
            &mut self.seat,
            &mut self.copies,
            self.next,
            count,
            &mut self.spare,
        );
        self.next = count;
        std::mem::swap(&mut self.missing, &mut self.spare);
        self.copies.find(part, target)
    }

    fn offer(&mut self, lits: &[Literal], tag: Tag) -> Published
        requires { (instance : Instance) × ((view_of self.old.seat).instance ≡ instance)
            × IsOffer instance lits.now tag.code }
        ensures offered { OffersRow (state_of_rows self.old) (state_of_rows self.new) lits.now
            tag.code result }
        ensures serves { (instance : Instance) →
            ((view_of self.old.seat).instance ≡ instance)
            ↔ ((view_of self.new.seat).instance ≡ instance) }
        ensures since { (was : _) → AreLater was self.old → AreLater was self.new }
        ensures published { SeatPublishes (view_of self.old.seat) lits.now tag.code result
            (view_of self.new.seat) }
        ensures copies { self.new.copies ≡ self.old.copies }
    {
        self.pool.publish(&mut self.seat, lits, tag)
    }

    ghost one_content = { λ rows. rows.copied.one };
}
