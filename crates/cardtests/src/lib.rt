//! Small examples of the refusal card and of the stores, run as tests.
#![tactic(auto)]

#[cfg(test)]
mod tests {
    use plane::{Halfsegment, Point};
    use region::CheckRefusal;
    use storage::{
        ByteStore, InsertRefusal, NoSuchPlace, RecordStore, ShiftedStore, Source, Store, same,
    };

    fn row(x: i32, y: i32, far_x: i32, far_y: i32) -> Halfsegment {
        Halfsegment {
            dominating: Point { x, y },
            far: Point { x: far_x, y: far_y },
        }
    }

    /// What check says, by the refusal's number.
    fn checked(store: &RecordStore) -> Result<(), u8> {
        region::check(store).map_err(CheckRefusal::number)
    }

    #[test]
    fn an_empty_store_has_no_place(rt: HostRuntime) {
        let mut memory = [Halfsegment::default(); 2];
        let mut store = RecordStore::new(&mut memory);
        assert_eq!(rt; store.count(), 0);
        assert!(rt; store.row(0).is_err());
        assert!(rt; store.remove(0).is_err());
        assert_eq!(rt; NoSuchPlace.number(), 16);
    }

    #[test]
    fn the_place_is_refused_before_the_room(rt: HostRuntime) {
        let mut memory = [Halfsegment::default(); 1];
        let mut store = RecordStore::new(&mut memory);
        assert!(rt; store.insert(0, row(0, 0, 4, 0)).is_ok());
        assert_eq!(rt;
            store
                .insert(2, row(4, 0, 0, 0))
                .map_err(InsertRefusal::number),
            Err(16)
        );
        assert_eq!(rt;
            store
                .insert(1, row(4, 0, 0, 0))
                .map_err(InsertRefusal::number),
            Err(5)
        );
        assert_eq!(rt; store.count(), 1);
    }

    #[test]
    fn bytes_lie_highest_first(rt: HostRuntime) {
        let mut memory = [0xEEu8; 33];
        {
            let mut store = ByteStore::new(&mut memory);
            assert_eq!(rt; store.room(), 2);
            assert!(rt; store.insert(0, row(1, -2, 258, 10_000_000)).is_ok());
        }
        assert!(rt; memory[0..4] == [0, 0, 0, 1]);
        assert!(rt; memory[4..8] == [255, 255, 255, 254]);
        assert!(rt; memory[8..12] == [0, 0, 1, 2]);
        assert!(rt; memory[12..16] == [0, 152, 150, 128]);
        assert_eq!(rt; memory[16], 0xEE);
        assert_eq!(rt; memory[32], 0xEE);
    }

    #[test]
    fn a_shifted_store_wraps(rt: HostRuntime) {
        let mut below = [0u8; 32];
        let mut beside = [Halfsegment::default(); 2];
        let mut shifted = ShiftedStore::new(ByteStore::new(&mut below), 10, -1);
        let mut plain = RecordStore::new(&mut beside);
        assert!(rt;
            shifted
                .insert(0, row(-2_147_483_648, 0, 7, 2_147_483_647))
                .is_ok()
        );
        assert!(rt;
            plain
                .insert(0, row(-2_147_483_648, 0, 7, 2_147_483_647))
                .is_ok()
        );
        assert!(rt; same(&shifted, &plain));
        assert!(rt; plain.insert(1, row(0, 0, 1, 1)).is_ok());
        assert!(rt; !same(&shifted, &plain));
    }

    #[test]
    fn rows_by_themselves(rt: HostRuntime) {
        let mut memory = [Halfsegment::default(); 2];
        let mut store = RecordStore::new(&mut memory);
        assert_eq!(rt; checked(&store), Ok(()));
        assert!(rt; store.insert(0, row(0, 0, 10_000_001, 0)).is_ok());
        assert_eq!(rt; checked(&store), Err(1));
        assert!(rt; store.remove(0).is_ok());
        assert!(rt; store.insert(0, row(3, 3, 3, 3)).is_ok());
        assert_eq!(rt; checked(&store), Err(2));
        assert!(rt; store.remove(0).is_ok());
        assert!(rt; store.insert(0, row(0, 0, 4, 0)).is_ok());
        assert_eq!(rt; checked(&store), Err(8));
        assert!(rt; store.insert(1, row(0, 0, 4, 0)).is_ok());
        assert_eq!(rt; checked(&store), Err(7));
        assert!(rt; store.remove(1).is_ok());
        assert!(rt; store.insert(1, row(4, 0, 0, 0)).is_ok());
        assert_eq!(rt;
            region::check(&store),
            Err(CheckRefusal::Unclosed(Point { x: 0, y: 0 })),
            "one line is not closed"
        );
    }
}
