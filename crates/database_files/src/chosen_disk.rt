//! A disk of which it is chosen as it is opened how its torn writes are judged.

ghost use Rattle.std.specs.Prelude.{◌≡◌, ◌&&◌};
ghost use Rattle.database_files.specs.TornWrites.{is_old_or_new};

use crate::torn_writes::TornWrites;
use sqlite_disk::{Disk, Tally};
use std::io;

/// Hands each call on to a disk, and makes none of its own. That a torn write leaves each byte old or new is supposed
/// where the disk says so and it is chosen.
#[derive(Drop)]
pub struct ChosenDisk<D: Disk> {
    disk: D,
    torn: TornWrites,
}

impl<D: Disk> ChosenDisk<D> {
    ghost use Rattle.database_files.specs.ChosenDisk.{disk_of};

    /// The disk whose torn writes are judged so.
    pub fn new(disk: D, torn: TornWrites) -> ChosenDisk<D>
        ensures { disk_of result ≡ disk }
    {
        ChosenDisk { disk, torn }
    }
}

impl<D: Disk> Disk for ChosenDisk<D> {
    ghost seen = { λ f. D.Disk.seen f.disk };

    ghost may_leave = { λ f. D.Disk.may_leave f.disk };

    ghost is_usable = { λ f. D.Disk.is_usable f.disk };

    ghost faults = { λ f. D.Disk.faults f.disk };

    ghost tally_of = { λ f. D.Disk.tally_of f.disk };

    ghost is_rotten = { λ f. D.Disk.is_rotten f.disk };

    ghost key_of = { λ f. D.Disk.key_of f.disk };

    ghost is_frozen = { λ f. D.Disk.is_frozen f.disk };

    ghost is_clean = { λ f. D.Disk.is_clean f.disk };

    ghost is_fair = { λ f. D.Disk.is_fair f.disk };

    ghost fair_if_clean = { λ f. D.Disk.fair_if_clean f.disk };

    ghost seen_may_stay = { λ f. D.Disk.seen_may_stay f.disk };

    ghost is_mixing = { λ f. D.Disk.is_mixing f.disk && is_old_or_new f.torn };

    fn mixes(&self) -> bool {
        self.disk.mixes() && self.torn.is_old_or_new()
    }

    fn key(&self) -> u64 {
        self.disk.key()
    }

    fn tally(&self) -> Tally {
        self.disk.tally()
    }

    fn may_be_used(&self) -> bool {
        self.disk.may_be_used()
    }

    fn len(&mut self) -> io::Result<usize> {
        self.disk.len()
    }

    fn read_at(&mut self, at: usize, buf: &mut [u8]) -> io::Result<()> {
        self.disk.read_at(at, buf)
    }

    fn read_checked(&mut self, key: u64, want: u64, at: usize, buf: &mut [u8]) -> io::Result<()> {
        self.disk.read_checked(key, want, at, buf)
    }

    fn write_at(&mut self, at: usize, bytes: &[u8]) -> io::Result<()> {
        self.disk.write_at(at, bytes)
    }

    fn set_len(&mut self, len: usize) -> io::Result<()> {
        self.disk.set_len(len)
    }

    fn sync(&mut self) -> io::Result<()> {
        self.disk.sync()
    }
}
