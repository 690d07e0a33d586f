//! The keys under which a dataset holds its blocks.

ghost use Rattle.std.specs.Prelude.{◌≡◌, ◌<◌, ◌≤◌, ◌+◌, ◌-◌, ◌^◌, IfSome};
ghost use Rattle.std.specs.declared.cmp.Ordering.TheVariants.{Less};
ghost use Rattle.zs_ids.specs.Key.{key_cmp, parent_of};
ghost use Rattle.zs_ids.specs.KeyLaws.{ParentLaw};

/// Where a block stands in a dataset. Keys are ordered by object, rank, leaf and depth, so that a
/// block comes before the blocks below it and a walk in order of key is one from the top.
///
/// The root is (0,0,0,0); the block of the dnodes of objects 32j to 32j+31 is (32j,0,0,1); the block of
/// object n at level l over the leaves from f on is (n,1,f,3-l), so its record f is (n,1,f,3).
#[derive(Clone, Copy, Debug, PartialEq, Eq, PartialOrd, Ord)]
pub struct Key {
    /// The object, or the first of the 32 whose dnodes the block has; 0 for the root.
    pub object: u16,
    /// 0 for the root and the blocks of dnodes, 1 for the blocks of an object.
    pub rank: u8,
    /// The first leaf below the block.
    pub leaf: u32,
    /// 0 at the root, 1 at a block of dnodes, 3 at a record.
    pub depth: u8,
}

impl Key {
    /// The dataset's root.
    pub const ROOT: Key = Key {
        object: 0,
        rank: 0,
        leaf: 0,
        depth: 0,
    };

    /// The least key above this one at the same place: depth one more.
    pub fn after(self) -> Key
        requires { self.depth < 4 }
        ensures { result ≡ record self { depth = self.depth + 1 } }
    {
        Key {
            depth: self.depth + 1,
            ..self
        }
    }

    /// The key of the block that has this block's pointer, in an object of that many levels (1 to 4).
    /// `None` for the root.
    pub fn parent(self, levels: u8) -> Option<Key>
        ensures table { result ≡ parent_of self levels }
        ensures below { levels ≤ 4 → IfSome result (λ parent. key_cmp parent self ≡ Less) }
    {
        if self.rank == 0 {
            return if self.depth == 0 {
                None
            } else {
                Some(Key::ROOT)
            };
        }
        if u16::from(levels) + u16::from(self.depth) <= 4 {
            return Some(Key {
                object: self.object - self.object % 32,
                rank: 0,
                leaf: 0,
                depth: 1,
            });
        }
        Some(Key {
            leaf: self.leaf - self.leaf % span_above(self.depth),
            depth: self.depth.saturating_sub(1),
            ..self
        })
    }
}

/// How many leaves the block above a block of that depth covers.
fn span_above(depth: u8) -> u32
    ensures span { result ≡ 64 ^ (4 - depth) }
    ensures positive { 0 < result }
{
    match depth {
        0 => 16_777_216,
        1 => 262_144,
        2 => 4096,
        3 => 64,
        _ => 1,
    }
}

/// In an object of at most four levels the block that has a block's pointer comes before it.
pub fn parent_law()
    ensures { ParentLaw }
{}
