//! Keys by the table of the blocks of a dataset, and lists and boxed values in and out of a public type.

ghost use Rattle.std.specs.Prelude.{◌≡◌, ℕ, List, length, IfOk};
ghost use Rattle.zs_ids.specs.declared.block.Piece.{Piece};
ghost use Rattle.zs_dataset_tests.specs.declared.ids.Told.TheVariants.{Few, Many};

use std::alloc::{AllocError, Global};
use std::test::Fail;
use zs_ids::key::parent_law;
use zs_ids::{Boxed, Key, Piece, Place, Seq};

/// A block of object 37.
fn block(leaf: u32, depth: u8) -> Key {
    Key {
        object: 37,
        rank: 1,
        leaf,
        depth,
    }
}

/// The block of the dnodes of objects 32 to 63.
fn dnodes() -> Key {
    Key {
        object: 32,
        rank: 0,
        leaf: 0,
        depth: 1,
    }
}

#[test]
fn parents_lead_from_a_record_to_the_root(rt: HostRuntime) {
    parent_law();
    assert!(rt; block(128, 2) < block(130, 3) && dnodes() < block(0, 1) && Key::ROOT < dnodes());
    assert_eq!(rt; block(130, 3).parent(3), Some(block(128, 2)));
    assert_eq!(rt; block(128, 2).parent(3), Some(block(0, 1)));
    assert_eq!(rt; block(0, 1).parent(3), Some(dnodes()));
    assert_eq!(rt; dnodes().parent(3), Some(Key::ROOT));
    assert_eq!(rt; Key::ROOT.parent(3), None);
}

#[test]
fn the_one_record_of_a_flat_object_stands_in_its_dnode(rt: HostRuntime) {
    assert_eq!(rt; block(0, 3).parent(1), Some(dnodes()));
}

#[test]
fn a_block_comes_before_the_blocks_below_it(rt: HostRuntime) {
    assert!(rt; Key::ROOT < dnodes());
    assert!(rt; dnodes() < block(0, 1));
    assert!(rt; block(0, 1) < block(0, 2));
    assert!(rt; block(0, 3) < block(64, 2));
}

#[test]
fn after_a_key_comes_the_next_depth_at_its_place(rt: HostRuntime) {
    let above = Key {
        depth: 2,
        ..block(64, 1)
    };
    assert_eq!(rt; above.after(), block(64, 3));
    assert_eq!(rt; Key::ROOT.after().depth, 1);
}

#[test]
fn a_list_keeps_the_order_of_its_items(rt: HostRuntime) -> Result<(), Fail> {
    let alloc = rt.alloc();
    let mut list = Seq::new(alloc);
    assert_eq!(rt; list.len(), 0);
    list.push(3)?;
    list.push(1)?;
    assert_eq!(rt; list.len(), 2);
    assert_eq!(rt; list.as_slice(), [3, 1].as_slice());
    assert_eq!(rt; list.into_vec().as_slice(), [3, 1].as_slice());
    Ok(())
}

#[test]
fn a_list_is_made_from_a_vec_or_a_slice(rt: HostRuntime) -> Result<(), Fail> {
    let alloc = rt.alloc();
    let copied = Seq::from_slice(alloc, &[5, 6])?;
    let moved = Seq::from_vec(copied.into_vec());
    assert_eq!(rt; moved.as_slice(), [5, 6].as_slice());
    Ok(())
}

/// An event whose one rare variant is large.
#[derive(Debug, Drop)]
enum Told {
    Few(u8),
    Many(Boxed<Seq<Piece>>),
}

/// The event of these pieces.
fn many(alloc: Global, pieces: Seq<Piece>) -> Result<Told, AllocError>
    ensures { IfOk result (λ told. told ≡ Many pieces) }
{
    Ok(Told::Many(Boxed::new(alloc, pieces)?))
}

/// How many pieces the event has.
fn count(told: &Told) -> usize
    ensures few { (n : ℕ) → told.now ≡ Few n → result ≡ n }
    ensures many { (pieces : List Piece) → told.now ≡ Many pieces → result ≡ length pieces }
{
    match told {
        Told::Few(n) => usize::from(*n),
        Told::Many(pieces) => pieces.get().len(),
    }
}

#[test]
fn a_boxed_list_is_seen_as_the_list(rt: HostRuntime) -> Result<(), Fail> {
    let alloc = rt.alloc();
    let piece = Piece {
        place: Place {
            vdev: 0,
            sector: 296,
        },
        birth: 4,
    };
    let told = many(alloc, Seq::from_slice(alloc, &[piece, piece])?)?;
    assert_eq!(rt; count(&told), 2);
    assert_eq!(rt; count(&Told::Few(3)), 3);
    let mut boxed = Boxed::new(alloc, piece)?;
    assert_eq!(rt; *boxed.get(), piece);
    let later = Piece { birth: 5, ..piece };
    boxed.set(later);
    assert_eq!(rt; boxed.into_inner(), later);
    Ok(())
}
