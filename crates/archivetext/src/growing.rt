//! An archive that is written into memory of its own.
ghost use Rattle.std.specs.Prelude.{◌≡◌, ◌≤◌, length, vec_len};

use crate::faults::{LineFault, PackError, PackFault};
use crate::filling::lengthen;
use crate::packing::PlanLines;
use archive::{AddRefusal, BeginRefusal, OpenArchive, is_title};
use encoding::Date;
use std::alloc::{AllocError, Global};
use storage::ROW_BYTES;

/// How many bytes the field of the date takes.
const DATE_FIELD: usize = 7;

/// How many bytes the heads of a plan's three fields take.
const PLAN_HEADS: usize = 9;

/// How many bytes the last field takes.
const LAST_FIELD: usize = 5;

/// An archive in memory of its own, which it fills.
pub(crate) struct Growing {
    bytes: Vec<u8>,
    archive: OpenArchive,
    ghost full: { vec_len bytes ≡ archive.len },
}

impl Growing {
    ghost use Rattle.archivetext.specs.Packing.{Added, Begun, Closed};

    /// Begins an archive with the date of the first line.
    pub(crate) fn begin(alloc: Global, date: Date) -> Result<Growing, PackError>
        ensures { Begun date result }
    {
        let mut bytes = vec![in alloc; 0; DATE_FIELD]?;
        match OpenArchive::begin(&mut bytes, date) {
            Ok(archive) => Ok(Growing { bytes, archive }),
            Err(BeginRefusal::NoSuchDate) => Err(PackError::AtLine(PackFault {
                line: 1,
                why: LineFault::NoSuchDate,
            })),
            Err(BeginRefusal::NoRoom) => unreachable!(),
        }
    }

    /// Adds a plan that was read.
    pub(crate) fn add(self, plan: &PlanLines) -> Result<Growing, PackError>
        requires { length plan.now.rows.items ≤ 4000 }
        ensures { Added self plan.now result }
    {
        let Growing { mut bytes, archive } = self;
        let refused = |refusal| PackError::AtLine(PackFault {
            line: plan.line,
            why: LineFault::Refused(refusal),
        });
        // So no memory is taken for a title that is too long.
        if !is_title(plan.title) {
            archive.abandon();
            return Err(refused(AddRefusal::BadTitle));
        }
        let size = PLAN_HEADS + plan.title.len() + ROW_BYTES * plan.rows.len();
        if let Err(failed) = lengthen(&mut bytes, size) {
            archive.abandon();
            return Err(failed.into());
        }
        match archive.add(&mut bytes, plan.title, plan) {
            Ok(archive) => Ok(Growing { bytes, archive }),
            Err((archive, refusal)) => {
                archive.abandon();
                Err(refused(refusal))
            }
        }
    }

    /// Gives the archive up.
    pub(crate) fn abandon(self) {
        let Growing { bytes: _, archive } = self;
        archive.abandon();
    }

    /// The bytes of the whole archive.
    pub(crate) fn close(self) -> Result<Vec<u8>, AllocError>
        ensures { Closed self result }
    {
        let Growing { mut bytes, archive } = self;
        if let Err(failed) = lengthen(&mut bytes, LAST_FIELD) {
            archive.abandon();
            return Err(failed);
        }
        match archive.close(&mut bytes) {
            Ok(_) => Ok(bytes),
            Err(_) => unreachable!(),
        }
    }
}
