//! Small examples of archives, written and read back, run as tests.
#![tactic(auto)]

#[cfg(test)]
mod tests {
    use archive::{CloseRefusal, Contents, OpenArchive, Reader, read};
    use encoding::Date;
    use plane::{Halfsegment, Point};
    use std::test::Fail;
    use storage::{
        ByteStore, InsertRefusal, MOST_ROWS, ROW_BYTES, RecordStore, Source, Store, same,
    };

    const DAY: Date = Date {
        year: 2024,
        month: 2,
        day: 29,
    };

    /// An archive of two plans: a triangle under a title of 40 bytes, and one without rows.
    const TWO_PLANS: [u8; 172] = *b"\x01\x00\x04\x07\xe8\x02\x1d\
        \x20\x00\x8e\
        \x21\x00\x28Forty bytes, as many as a title may have\
        \x22\x00\x60\
        \0\0\0\0\0\0\0\0\0\0\0\x04\0\0\0\0\
        \0\0\0\0\0\0\0\0\0\0\0\0\0\0\0\x03\
        \0\0\0\0\0\0\0\x03\0\0\0\0\0\0\0\0\
        \0\0\0\0\0\0\0\x03\0\0\0\x04\0\0\0\0\
        \0\0\0\x04\0\0\0\0\0\0\0\0\0\0\0\x03\
        \0\0\0\x04\0\0\0\0\0\0\0\0\0\0\0\0\
        \x20\x00\x0c\
        \x21\x00\x06Cell 2\
        \x22\x00\x00\
        \x7f\x00\x02\x00\x02";

    const TITLE: &[u8] = b"Forty bytes, as many as a title may have";

    fn row(x: i32, y: i32, far_x: i32, far_y: i32) -> Halfsegment {
        Halfsegment {
            dominating: Point { x, y },
            far: Point { x: far_x, y: far_y },
        }
    }

    /// Adds the rows at the end of the store.
    fn fill<S: Store>(store: &mut S, rows: &[Halfsegment]) -> Result<(), InsertRefusal> {
        for row in rows {
            let end = store.count();
            store.insert(end, *row)?;
        }
        Ok(())
    }

    /// The triangle (0, 0), (4, 0), (0, 3).
    fn fill_triangle(store: &mut RecordStore) -> Result<(), InsertRefusal> {
        fill(
            store,
            &[
                row(0, 0, 4, 0),
                row(0, 0, 0, 3),
                row(0, 3, 0, 0),
                row(0, 3, 4, 0),
                row(4, 0, 0, 3),
                row(4, 0, 0, 0),
            ],
        )
    }

    /// Adds a plan, and tells the number of the refusal, if there is one. The archive is open in either case.
    fn add<S: Source>(
        archive: OpenArchive,
        bytes: &mut [u8],
        title: &[u8],
        source: &S,
    ) -> (OpenArchive, Option<u8>) {
        match archive.add(bytes, title, source) {
            Ok(archive) => (archive, None),
            Err((archive, refusal)) => (archive, Some(refusal.number())),
        }
    }

    /// Closes the archive, which is to succeed, and tells its length.
    fn closed_length(archive: OpenArchive, bytes: &mut [u8]) -> Result<usize, CloseRefusal> {
        match archive.close(bytes) {
            Ok(closed) => Ok(closed.len()),
            Err((archive, refusal)) => {
                archive.abandon();
                Err(refusal)
            }
        }
    }

    /// Writes the archive of two plans, and tells its length.
    fn write_two_plans(bytes: &mut [u8]) -> Result<usize, Fail> {
        let mut memory = [Halfsegment::default(); 6];
        let mut triangle = RecordStore::new(&mut memory);
        fill_triangle(&mut triangle)?;
        let bare = RecordStore::new(&mut []);
        let archive = OpenArchive::begin(bytes, DAY)?;
        let (archive, first) = add(archive, bytes, TITLE, &triangle);
        let (archive, second) = add(archive, bytes, b"Cell 2", &bare);
        if first.is_some() || second.is_some() {
            archive.abandon();
            return Err(Fail::new("a plan is refused"));
        }
        Ok(closed_length(archive, bytes)?)
    }

    #[test]
    fn two_plans_take_their_bytes(rt: HostRuntime) -> Result<(), Fail> {
        let mut bytes = [0xEEu8; 172];
        assert_eq!(rt; write_two_plans(&mut bytes)?, 172);
        assert!(rt; bytes == TWO_PLANS);
        let mut bytes = [0xEEu8; 176];
        assert_eq!(rt; write_two_plans(&mut bytes)?, 172);
        assert!(rt; bytes.starts_with(&TWO_PLANS));
        assert!(rt; bytes.ends_with(&[0xEE; 4]), "bytes past the archive stay");
        Ok(())
    }

    /// The number of the refusal, if no archive can be begun.
    fn begin_refused(bytes: &mut [u8], year: u16, month: u8, day: u8) -> Option<u8> {
        match OpenArchive::begin(bytes, Date { year, month, day }) {
            Ok(archive) => {
                archive.abandon();
                None
            }
            Err(refusal) => Some(refusal.number()),
        }
    }

    #[test]
    fn begin_is_refused(rt: HostRuntime) {
        let mut bytes = [0xEEu8; 7];
        assert_eq!(rt; begin_refused(&mut bytes, 2001, 2, 29), Some(17));
        assert_eq!(rt; begin_refused(&mut bytes, 2000, 2, 30), Some(17));
        assert_eq!(rt; begin_refused(&mut bytes[..6], 2000, 2, 29), Some(14));
        assert!(rt; bytes == [0xEE; 7]);
        assert_eq!(rt; begin_refused(&mut bytes, 2000, 2, 29), None);
        assert!(rt; bytes == [0x01, 0, 4, 0x07, 0xD0, 2, 29]);
    }

    #[test]
    fn add_is_refused_and_the_archive_goes_on(rt: HostRuntime) -> Result<(), Fail> {
        let mut memory = [Halfsegment::default(); 6];
        let mut triangle = RecordStore::new(&mut memory);
        fill_triangle(&mut triangle)?;
        let bare = RecordStore::new(&mut []);
        let mut bytes = [0xEEu8; 111];
        let archive = OpenArchive::begin(&mut bytes, DAY)?;
        let before = bytes;
        let (archive, refused) = add(archive, &mut bytes, &[b'x'; 41], &bare);
        assert_eq!(rt; refused, Some(15));
        let (archive, refused) = add(archive, &mut bytes, b"Cell \x7f", &bare);
        assert_eq!(rt; refused, Some(15));
        let (archive, refused) = add(archive, &mut bytes, b"", &triangle);
        assert_eq!(rt; refused, Some(14), "one byte is missing");
        assert!(rt; bytes == before);
        let (archive, refused) = add(archive, &mut bytes, b"", &bare);
        assert_eq!(rt; refused, None);
        assert_eq!(rt; closed_length(archive, &mut bytes)?, 21);
        assert_eq!(rt; read(&bytes[..21]).map(|contents| contents.plans), Ok(1));
        Ok(())
    }

    #[test]
    fn close_is_refused_and_the_archive_goes_on(rt: HostRuntime) -> Result<(), Fail> {
        let mut memory = [Halfsegment::default(); 6];
        let mut triangle = RecordStore::new(&mut memory);
        fill_triangle(&mut triangle)?;
        let mut bytes = [0xEEu8; 112];
        let archive = OpenArchive::begin(&mut bytes, DAY)?;
        let (archive, refused) = add(archive, &mut bytes, b"", &triangle);
        assert_eq!(rt; refused, None, "no byte is left over");
        let before = bytes;
        let Err((archive, refusal)) = archive.close(&mut bytes) else {
            return Err(Fail::new("the last field does not fit"))
        };
        assert_eq!(rt; refusal.number(), 14);
        assert!(rt; bytes == before);
        let mut longer = [0xEEu8; 117];
        longer[..112].copy_from_slice(&bytes);
        assert_eq!(rt; closed_length(archive, &mut longer)?, 117);
        assert_eq!(rt; read(&longer).map(|contents| contents.plans), Ok(1));
        Ok(())
    }

    /// The number of the refusal, if the rows cannot be added to an archive of no plans. Then all bytes stay.
    fn rows_refused(rows: &[Halfsegment]) -> Result<Option<u8>, Fail> {
        let mut memory = [Halfsegment::default(); 4];
        let mut store = RecordStore::new(&mut memory);
        fill(&mut store, rows)?;
        let mut bytes = [0xEEu8; 80];
        let archive = OpenArchive::begin(&mut bytes, DAY)?;
        let before = bytes;
        let (archive, refused) = add(archive, &mut bytes, b"", &store);
        archive.abandon();
        if refused.is_some() && bytes != before {
            return Err(Fail::new("a refusal changed the bytes"));
        }
        Ok(refused)
    }

    #[test]
    fn rows_are_checked(rt: HostRuntime) -> Result<(), Fail> {
        let there = row(0, 0, 4, 0);
        let back = row(4, 0, 0, 0);
        assert_eq!(rt; rows_refused(&[])?, None);
        assert_eq!(rt; rows_refused(&[row(0, 0, 10_000_001, 0)])?, Some(1));
        assert_eq!(rt; rows_refused(&[row(3, 3, 3, 3)])?, Some(2));
        assert_eq!(rt; rows_refused(&[there, there])?, Some(7));
        assert_eq!(rt; rows_refused(&[there])?, Some(8));
        assert_eq!(rt; rows_refused(&[there, back])?, Some(9));
        assert_eq!(rt;
            rows_refused(&[
                row(0, 0, 4, 4),
                row(0, 4, 4, 0),
                row(4, 0, 0, 4),
                row(4, 4, 0, 0),
            ])?,
            Some(4),
            "the diagonals of a square cross"
        );
        Ok(())
    }

    #[test]
    fn two_plans_are_read_back(rt: HostRuntime) -> Result<(), Fail> {
        let mut memory = [Halfsegment::default(); 6];
        let mut triangle = RecordStore::new(&mut memory);
        fill_triangle(&mut triangle)?;
        let (date, mut reader) = Reader::open(&TWO_PLANS)?;
        assert_eq!(rt; date, DAY);
        let first = reader.next_plan()?.ok_or("no first plan")?;
        assert!(rt; first.title == TITLE);
        assert_eq!(rt; first.rows.row(4), Ok(row(4, 0, 0, 3)));
        assert!(rt; first.rows.row(6).is_err());
        assert!(rt; same(&first.rows, &triangle));
        let second = reader.next_plan()?.ok_or("no second plan")?;
        assert!(rt; second.title == b"Cell 2".as_slice());
        assert_eq!(rt; second.rows.count(), 0);
        assert!(rt; reader.next_plan()?.is_none());
        assert_eq!(rt;
            read(&TWO_PLANS),
            Ok(Contents {
                date: DAY,
                plans: 2
            })
        );
        Ok(())
    }

    /// The rows of 500 squares on a grid of 25 columns, in order.
    fn fill_squares<S: Store>(store: &mut S) -> Result<(), InsertRefusal> {
        for column in 0..25u8 {
            let left = 10 * i32::from(column);
            let right = left + 4;
            for step in 0..20u8 {
                let low = 10 * i32::from(step);
                let high = low + 4;
                fill(
                    store,
                    &[
                        row(left, low, right, low),
                        row(left, low, left, high),
                        row(left, high, left, low),
                        row(left, high, right, high),
                    ],
                )?;
            }
            for step in 0..20u8 {
                let low = 10 * i32::from(step);
                let high = low + 4;
                fill(
                    store,
                    &[
                        row(right, low, left, low),
                        row(right, low, right, high),
                        row(right, high, left, high),
                        row(right, high, right, low),
                    ],
                )?;
            }
        }
        Ok(())
    }

    #[test]
    fn a_plan_of_4000_rows(rt: HostRuntime) -> Result<(), Fail> {
        let mut memory = vec![in rt.alloc(); 0u8; ROW_BYTES * MOST_ROWS]?;
        let mut squares = ByteStore::new(&mut memory);
        fill_squares(&mut squares)?;
        assert_eq!(rt; squares.count(), 4000);
        let mut bytes = vec![in rt.alloc(); 0xEEu8; 64_032]?;
        let archive = OpenArchive::begin(&mut bytes, DAY)?;
        let (archive, refused) = add(archive, &mut bytes, b"500 squares", &squares);
        assert_eq!(rt; refused, None);
        assert_eq!(rt; closed_length(archive, &mut bytes)?, 64_032);
        assert!(rt; bytes[7..10] == [0x20, 0xFA, 0x11]);
        assert!(rt; bytes[24..27] == [0x22, 0xFA, 0x00]);
        assert!(rt; bytes[64_027..] == [0x7F, 0, 2, 0, 1]);
        let (_, mut reader) = Reader::open(&bytes)?;
        let plan = reader.next_plan()?.ok_or("no plan")?;
        assert!(rt; plan.title == b"500 squares".as_slice());
        assert!(rt; same(&plan.rows, &squares));
        assert!(rt; reader.next_plan()?.is_none());
        Ok(())
    }
}
