//! A map from blocks to values.
ghost use Rattle.std.specs.Prelude.{◌≡◌, ◌<◌, ◌*◌, ◌^◌, ◌∷◌, [], None, IsSome, IfSome, IfNone, OnOk, OnErr, not};
ghost use Rattle.std.specs.Option.{option_copied};
ghost use Rattle.block_pool.specs.Pools.{held, with_block, without_block, kept_blocks, turned_values, passes, IsNextFrom, NoneFrom};
ghost use Rattle.block_pool.specs.Numbers.{block_number, number_after};

use crate::number::{block_at, block_number, number_after};
use crate::walk::{Tests, Turns, is_met};
use disk_model::Block;
use std::alloc::{AllocError, Global};
use std::collections::BTreeMap;
use std::marker::Model;

/// Values by block, in the order of the blocks: by their first sectors, and then by their kinds.
#[derive(Debug, Drop)]
pub struct Pool<T> {
    values: BTreeMap<u128, T>,
}

impl<T> Model for Pool<T> {
    ghost use Rattle.std.specs.Prelude.{List, ◌*◌, ◌^◌, ◌<◌, All};
    ghost use Rattle.std.specs.BTreeMap.{keys};
    ghost use Rattle.disk_model.specs.declared.block.Block.{Block as BlockOf};
    ghost use Rattle.block_pool.specs.Numbers.{shown};

    ghost Value = { List (BlockOf × T) };

    ghost view = { λ p. shown p.values.entries };

    ghost invariant = { λ p. All (λ n. n < 3 * 2 ^ 64) (keys p.values) };
}

impl<T> Pool<T> {
    /// No values. It takes no memory.
    pub fn new(alloc: Global) -> Pool<T>
        ensures { result ≡ [] }
    {
        Pool {
            values: BTreeMap::new(alloc),
        }
    }

    /// The value of a block, in time logarithmic in their number.
    pub fn get(&self, block: Block) -> Option<&T>
        ensures value { option_copied result ≡ held self.now block }
    {
        self.values.get(&block_number(block))
    }

    /// Puts a value for a block, in place of the one that it had. Logarithmic in their number.
    ///
    /// The error is want of memory, which comes only where the block had none; then nothing
    /// changes.
    pub fn put(&mut self, block: Block, value: T) -> Result<(), AllocError>
    where
        T: Drop,
        ensures ok { OnOk result (self.new ≡ with_block block value self.old) }
        ensures err { OnErr result (self.new ≡ self.old) }
        ensures absent { OnErr result (held self.old block ≡ None) }
    {
        match self.values.insert(block_number(block), value) {
            Ok(_) => Ok(()),
            Err(_) => Err(AllocError),
        }
    }

    /// Puts a value in place of the one that the block has, and answers that one. It takes no
    /// memory, and time logarithmic in their number.
    pub fn replace(&mut self, block: Block, value: T) -> Option<T>
    where
        T: Drop,
        requires some { IsSome (held self.old block) }
        ensures value { result ≡ held self.old block }
        ensures new { self.new ≡ with_block block value self.old }
    {
        match self.values.insert(block_number(block), value) {
            Ok(old) => old,
            Err(_) => None,
        }
    }

    /// Takes out the value of a block, if it has one. It takes no memory, and time logarithmic in
    /// their number.
    pub fn take(&mut self, block: Block) -> Option<T>
        ensures value { result ≡ held self.old block }
        ensures rest { self.new ≡ without_block block self.old }
    {
        self.values.remove(&block_number(block))
    }

    /// Takes out the first block, with its value. It takes no memory, and time logarithmic in
    /// their number.
    pub fn pop(&mut self) -> Option<(Block, T)>
        ensures first { IfSome result (λ p. self.old ≡ p ∷ self.new) }
        ensures alone { IfSome result (λ p. held self.new p.0 ≡ None) }
        ensures none { IfNone result (self.old ≡ []) }
        ensures same { IfNone result (self.new ≡ []) }
    {
        match self.values.pop_first() {
            Some((number, value)) => Some((block_at(number), value)),
            None => None,
        }
    }

    /// The first block behind this one whose value passes, or the first of all. It takes no memory,
    /// and time linear in the values that it passes over, and logarithmic in their number.
    pub fn next_where<P: Tests<T>>(&self, after: Option<Block>, test: &P) -> Option<Block>
        ensures next { IfSome result (IsNextFrom (P.told test.now) self.now (number_after after)) }
        ensures small { IfSome result (λ b. block_number b < 3 * 2 ^ 64) }
        ensures none { IfNone result (NoneFrom (P.told test.now) self.now (number_after after)) }
    {
        let number = number_after(after);
        for (found, value) in self.values.range(number..) {
            if test.passes(value) {
                return Some(block_at(*found));
            }
        }
        None
    }

    /// Changes each value. It takes no memory, and time linear in their number.
    pub fn turn_all<F: Turns<T>>(&mut self, change: &F)
    where
        T: Drop,
        ensures { self.new ≡ turned_values (F.turned change.now) self.old }
    {
        self.values.retain(|_, value| {
            *value = change.turn(value);
            true
        });
    }

    /// Drops the values of the blocks of which another pool has a value that passes. It takes no
    /// memory, and time near-linear in the number of values.
    pub fn drop_where<S, P: Tests<S>>(&mut self, other: &Pool<S>, test: &P)
    where
        T: Drop,
        ensures { self.new ≡ kept_blocks (λ b. not (passes (P.told test.now) (held other.now b))) self.old }
    {
        let others = &other.values;
        self.values
            .retain(|number, _| !is_met(others, test, *number));
    }
}
