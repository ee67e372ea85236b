// The data part.
ghost use Rattle.std.specs.Prelude.{◌≡◌, ◌≤◌, ◌<◌, ◌*◌, ℕ, ◌+◌, List, [], ◌∷◌, length, None, IfOk, MatchResult, MatchOption, IfSome, OnOk, vec_len};
ghost use Rattle.model_base.specs.{IsWithinLimits};
ghost use Rattle.model_parts.specs.{after_batch, batch_of, Fresh, HasNothingPending, IsBefore, IsCopyPut, IsLater, IsOpened, IsRepairable, IsRepaired, IsSteady, IsWritable, KeepsAll, KeepsPages, repair_write, slots_write};
ghost use Rattle.model_device.specs.{synced, written};
ghost use Rattle.model_page.specs.{data_device_length, HasNoCopy, IsBestCopy, place_bytes};
ghost use Rattle.model_page.specs.declared.content.Content.{Content};
ghost use Rattle.redo_dblwr.specs.{slots_read, stretch_read};
ghost use Rattle.redo_disk.specs.{error_of, MakesCall, MakesCalls, put_requests, Reads, Serve, OnTold, StillTells, WhereTold};
ghost use Rattle.redo_store.specs.Copies.{IsCopyToPut};
ghost use Rattle.redo_store.specs.Part.{PartStep, batch_requests};
ghost use Rattle.redo_store.specs.Holding.{PartStores, PartKeeps};
ghost use Rattle.redo_store.specs.RepairRequests.{RepairCalls};

use crate::batch::{put_pages, put_slots};
use crate::mend::{find_copy, put_back};
use model_base::Shape;
use redo_dblwr::{place_at, read_stretch};
use redo_disk::{DevError, Sectors, write_and_sync};
use redo_lsn::NoMemory;
use std::alloc::{AllocError, Global};
use std::marker::Model;

/// The data part. It keeps the pages of a store, each in its place, and the slots through which they are written, so that
/// a torn place has a copy. A part whose call failed takes no more calls. Only `new` takes memory.
#[derive(Drop)]
pub struct DataPart<D: Sectors> {
    dev: D,
    shape: Shape,
    // room for all slots: the pages of a batch, or the copies that are read
    buffer: Vec<u8>,
    failed: Option<DevError>,
}

impl<D: Sectors> Model for DataPart<D> {
    ghost use Rattle.std.specs.Prelude.{vec_len};
    ghost use Rattle.redo_store.specs.Part.{Part};
    ghost use Rattle.redo_store.specs.Holding.{IsFitted};

    ghost Value = { Part D };

    ghost view = { λ part. record { dev = part.dev; shape = part.shape; failed = part.failed } };

    ghost invariant = { λ part. IsFitted D.seen part.dev part.shape (vec_len part.buffer) };
}

/// The room for all slots.
fn make_room(alloc: Global, shape: &Shape) -> Result<Vec<u8>, AllocError>
    requires { IsWithinLimits shape.now }
    ensures { IfOk result (λ room. vec_len room ≡ shape.now.slots * shape.now.page_size) }
{
    vec![in alloc; 0u8; shape.slots as usize * shape.page_size as usize]
}

impl<D: Sectors> DataPart<D> {
    /// A part over this device. It takes the room for a batch.
    pub fn new(alloc: Global, dev: D, shape: &Shape) -> Result<DataPart<D>, (NoMemory, D)>
        requires limits { IsWithinLimits shape.now }
        requires long { data_device_length shape.now ≤ (D.seen dev).size }
        ensures part { IfOk result (λ part. part ≡ record { dev = dev; shape = shape.now; failed = None }) }
        ensures stores { (top was : ℕ → Content) → IfSome (D.seen dev).tells (IsOpened shape.now top was)
            → IfOk result (PartStores D.seen top was []) }
        ensures dev { MatchResult result (λ part. part.dev ≡ dev) (λ error. error.1 ≡ dev) }
    {
        let shape = *shape;
        match make_room(alloc, &shape) {
            Ok(buffer) => Ok(DataPart {
                dev,
                shape,
                buffer,
                failed: None,
            }),
            Err(_) => Err((NoMemory, dev)),
        }
    }

    /// Writes the pages of a batch into the slots, and makes them stay there. Their places are as they were.
    pub fn put_batch(&mut self, batch: &[(u32, u64)], frames: &[u8]) -> Result<(), DevError>
        requires live { self.old.failed ≡ None }
        requires batch { IsWritable self.old.shape batch.now frames.now }
        ensures stores { (top was : ℕ → Content) → PartStores D.seen top was [] self.old
            → PartStores D.seen top was (batch_of self.old.shape batch.now frames.now) self.new }
        ensures slots { OnOk result (OnTold (D.seen self.old.dev).tells (D.seen self.new.dev).tells
            (λ old new. new ≡ synced (written old
            (slots_write self.old.shape (batch_of self.old.shape batch.now frames.now))))) }
        ensures calls { MakesCalls D.gives self.old.dev self.new.dev
            (Serve (put_requests (slots_write self.old.shape (batch_of self.old.shape batch.now frames.now)))
            (error_of result)) }
        ensures step { PartStep D.seen self.old result self.new }
    {
        match put_slots(&mut self.dev, &self.shape, batch, frames, &mut self.buffer) {
            Ok(()) => Ok(()),
            Err(error) => {
                self.failed = Some(error);
                Err(error)
            }
        }
    }

    /// Writes the pages of a batch: into the slots, and once they stay there each into its place.
    pub fn write_batch(&mut self, batch: &[(u32, u64)], frames: &[u8]) -> Result<(), DevError>
        requires live { self.old.failed ≡ None }
        requires batch { IsWritable self.old.shape batch.now frames.now }
        ensures keeps { (top was : ℕ → Content) → PartStores D.seen top was [] self.old
            → IsLater top (batch_of self.old.shape batch.now frames.now)
            → PartKeeps D.seen top was (batch_of self.old.shape batch.now frames.now) self.new }
        ensures ok { (top was : ℕ → Content) → PartStores D.seen top was [] self.old
            → IsLater top (batch_of self.old.shape batch.now frames.now)
            → OnOk result (PartStores D.seen (after_batch (batch_of self.old.shape batch.now frames.now) top)
            (after_batch (batch_of self.old.shape batch.now frames.now) was) [] self.new) }
        ensures pages { (was : ℕ → Content)
            → IfSome (D.seen self.old.dev).tells
            (IsBefore self.old.shape was (batch_of self.old.shape batch.now frames.now))
            → IfSome (D.seen self.new.dev).tells
            (KeepsPages self.old.shape was (batch_of self.old.shape batch.now frames.now)) }
        ensures done { (was : ℕ → Content)
            → IfSome (D.seen self.old.dev).tells
            (IsBefore self.old.shape was (batch_of self.old.shape batch.now frames.now))
            → OnOk result (IfSome (D.seen self.new.dev).tells
            (IsSteady self.old.shape (after_batch (batch_of self.old.shape batch.now frames.now) was))) }
        ensures calls { MakesCalls D.gives self.old.dev self.new.dev
            (Serve (batch_requests self.old.shape (batch_of self.old.shape batch.now frames.now)) (error_of result)) }
        ensures step { PartStep D.seen self.old result self.new }
    {
        // What the device tells is as long as it says.
        let _size = self.dev.len();
        match put_pages(&mut self.dev, &self.shape, batch, frames, &mut self.buffer) {
            Ok(()) => Ok(()),
            Err(error) => {
                self.failed = Some(error);
                Err(error)
            }
        }
    }

    /// Reads the place of a page.
    pub fn read_page(&mut self, page: u32, out: &mut [u8]) -> Result<(), DevError>
        requires live { self.old.failed ≡ None }
        requires page { page < self.old.shape.pages }
        requires out { length out.old ≡ self.old.shape.page_size }
        ensures bytes { OnOk result (IfSome (D.seen self.new.dev).tells
            (λ disk. out.new ≡ place_bytes self.old.shape page disk.reads)) }
        ensures stores { (top was : ℕ → Content) (batch : List Fresh)
            → PartStores D.seen top was batch self.old → PartStores D.seen top was batch self.new }
        ensures same { StillTells (D.seen self.old.dev).tells (D.seen self.new.dev).tells }
        ensures call { MakesCall D.gives self.old.dev
            (Reads ((self.old.shape.slots + page) * self.old.shape.page_size) out.old result out.new) self.new.dev }
        ensures calls { MakesCalls D.gives self.old.dev self.new.dev
            (Serve (stretch_read self.old.shape (self.old.shape.slots + page) ∷ []) (error_of result)) }
        ensures step { PartStep D.seen self.old result self.new }
    {
        match read_stretch(&mut self.dev, &self.shape, self.shape.slots + page, out) {
            Ok(()) => Ok(()),
            Err(error) => {
                self.failed = Some(error);
                Err(error)
            }
        }
    }

    /// The slot and the lsn of the copy of a page that counts, where one passes.
    pub fn best_copy(&mut self, page: u32) -> Result<Option<(u32, u64)>, DevError>
        requires live { self.old.failed ≡ None }
        ensures found { IfOk result (λ found. IfSome (D.seen self.new.dev).tells (λ disk. MatchOption found
            (HasNoCopy self.old.shape disk.reads page)
            (λ best. IsBestCopy self.old.shape disk.reads page best.0 best.1))) }
        ensures within { IfOk result (λ found. IfSome found (λ best. best.0 < self.old.shape.slots)) }
        ensures stores { (top was : ℕ → Content) (batch : List Fresh)
            → PartStores D.seen top was batch self.old → PartStores D.seen top was batch self.new }
        ensures same { StillTells (D.seen self.old.dev).tells (D.seen self.new.dev).tells }
        ensures calls { MakesCalls D.gives self.old.dev self.new.dev
            (Serve (slots_read self.old.shape ∷ []) (error_of result)) }
        ensures step { PartStep D.seen self.old result self.new }
    {
        match find_copy(&mut self.dev, &self.shape, page, &mut self.buffer) {
            Ok(found) => Ok(found),
            Err(error) => {
                self.failed = Some(error);
                Err(error)
            }
        }
    }

    /// Puts the copy of a page that counts into its place, and makes it stay. Where nothing was pending, no kept page
    /// changes, wherever it ends.
    pub fn repair(&mut self, page: u32) -> Result<(), DevError>
        requires live { self.old.failed ≡ None }
        requires page { page < self.old.shape.pages }
        requires repairable { IfSome (D.seen self.old.dev).tells (IsRepairable self.old.shape page) }
        ensures keeps { IfSome (D.seen self.old.dev).tells HasNothingPending
            → WhereTold (D.seen self.old.dev).tells (D.seen self.new.dev).tells (KeepsAll self.old.shape) }
        ensures put { OnOk result (WhereTold (D.seen self.old.dev).tells (D.seen self.new.dev).tells
            (IsCopyPut self.old.shape page)) }
        ensures ok { IfSome (D.seen self.old.dev).tells HasNothingPending
            → OnOk result (WhereTold (D.seen self.old.dev).tells (D.seen self.new.dev).tells
            (IsRepaired self.old.shape page)) }
        ensures calls { MakesCalls D.gives self.old.dev self.new.dev (RepairCalls self.old.shape page (error_of result)) }
        ensures step { PartStep D.seen self.old result self.new }
    {
        // What the device tells is as long as it says.
        let _size = self.dev.len();
        match put_back(&mut self.dev, &self.shape, page, &mut self.buffer) {
            Ok(()) => Ok(()),
            Err(error) => {
                self.failed = Some(error);
                Err(error)
            }
        }
    }

    /// Puts the copy of a page that counts, which was read off the slots before, into its place, and makes it stay. Where
    /// nothing was pending, no kept page changes, wherever it ends. It reads nothing.
    pub fn put_copy(&mut self, page: u32, copy: &[u8]) -> Result<(), DevError>
        requires live { self.old.failed ≡ None }
        requires page { page < self.old.shape.pages }
        requires copy { length copy.now ≡ self.old.shape.page_size }
        requires counts { IfSome (D.seen self.old.dev).tells (IsCopyToPut self.old.shape page copy.now) }
        ensures keeps { IfSome (D.seen self.old.dev).tells HasNothingPending
            → OnTold (D.seen self.old.dev).tells (D.seen self.new.dev).tells (KeepsAll self.old.shape) }
        ensures put { OnOk result (OnTold (D.seen self.old.dev).tells (D.seen self.new.dev).tells
            (IsCopyPut self.old.shape page)) }
        ensures ok { IfSome (D.seen self.old.dev).tells HasNothingPending
            → OnOk result (OnTold (D.seen self.old.dev).tells (D.seen self.new.dev).tells
            (IsRepaired self.old.shape page)) }
        ensures calls { MakesCalls D.gives self.old.dev self.new.dev
            (Serve (put_requests (repair_write self.old.shape page copy.now)) (error_of result)) }
        ensures step { PartStep D.seen self.old result self.new }
    {
        // What the device tells is as long as it says.
        let _size = self.dev.len();
        match write_and_sync(&mut self.dev, place_at(&self.shape, page), copy) {
            Ok(()) => Ok(()),
            Err(error) => {
                self.failed = Some(error);
                Err(error)
            }
        }
    }

    /// What the call answered that failed.
    pub fn failed(&self) -> Option<DevError>
        ensures { result ≡ self.now.failed }
    {
        self.failed
    }

    /// The device.
    pub fn into_dev(self) -> D
        ensures { result ≡ self.dev }
    {
        let DataPart { dev, .. } = self;
        dev
    }
}
