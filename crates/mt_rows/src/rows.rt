// Values under keys, in order of relation and key.
ghost use Rattle.std.specs.Prelude.{◌≡◌, ◌↔◌, IfOk, OnOk, OnErr, IsTrue, length, is_none};
ghost use Rattle.std.specs.List.Sorted.{IsPermutation};
ghost use Rattle.std.specs.Option.{option_copied};
ghost use Rattle.std.specs.Cmp as order;
ghost use Rattle.std.specs.Cmp.Lexicographic.{pointwise, lists_equiv};
ghost use Rattle.mt_rows.specs.Listing.{of_relation};
ghost use Rattle.mt_rows.specs.Rows.{key_order, same_row, same_row_equiv, IsOrdered, AreKeysOnce, value_at, inserted, updated, deleted, IsPlace, IsAltered};

use mt_base::{Bytes, RelNo};
use std::alloc::{AllocError, Global};
use std::cmp::Ordering;
use std::marker::Model;
use std::mem;

/// A row of a relation: the value under a key.
#[derive(Clone, PartialEq, Eq, Debug, Drop)]
pub struct Row {
    pub relation: RelNo,
    pub key: Bytes,
    pub value: Bytes,
}

/// The rows of a base in order of relation and key bytes, each key once. Contracts see the list.
#[derive(Debug, Drop)]
pub struct Rows {
    list: Vec<Row>,
}

impl Model for Rows {
    ghost use Rattle.std.specs.Prelude.{List};
    ghost use Rattle.mt_rows.specs.declared.rows.Row.{Row};
    ghost use Rattle.mt_rows.specs.Rows.{IsOrdered};

    ghost Value = { List Row };

    ghost view = { λ r. r.list.items };

    ghost invariant = { λ r. IsOrdered r.list.items };
}

/// Two are equal if each row is.
impl PartialEq for Rows {
    ghost eq = { pointwise same_row };

    ghost laws = { order.partial_equiv_from_equiv (lists_equiv same_row_equiv) };

    fn eq(&self, other: &Rows) -> bool {
        self.list == other.list
    }
}

impl Eq for Rows {
    ghost laws = { lists_equiv same_row_equiv };
}

impl Row {
    /// How the row's key lies to another: by relation, then by bytes.
    fn order(&self, relation: RelNo, key: &Bytes) -> Ordering
        ensures { result ≡ key_order self.now.relation self.now.key relation key.now }
    {
        match self.relation.cmp(&relation) {
            Ordering::Equal => self.key.cmp(key),
            other => other,
        }
    }

    /// A copy of the row. The only error is want of memory.
    fn try_clone(&self) -> Result<Row, AllocError>
        ensures { IfOk result (λ copy. copy ≡ self.now) }
    {
        let key = self.key.try_clone()?;
        let value = self.value.try_clone()?;
        Ok(Row {
            relation: self.relation,
            key,
            value,
        })
    }
}

impl Rows {
    /// No rows. It takes no memory.
    pub fn empty(alloc: Global) -> Rows
        ensures { length result ≡ 0 }
    {
        Rows {
            list: Vec::new(alloc),
        }
    }

    /// Rows in any order, put in order. No two of them have the same key. It takes no memory.
    pub fn sorted(mut list: Vec<Row>) -> Rows
        requires once { AreKeysOnce list.items }
        ensures same { IsPermutation list.items result }
        ensures ordered { IsOrdered result }
    {
        list.sort_unstable_by(|row, other| row.order(other.relation, &other.key));
        Rows { list }
    }

    /// The rows in order, lent.
    pub fn as_slice(&self) -> &[Row]
        ensures rows { result.now ≡ self.now }
        ensures ordered { IsOrdered result.now }
    {
        self.list.as_slice()
    }

    /// Where the row of a key stands, or else where it would.
    fn place_of(&self, relation: RelNo, key: &Bytes) -> Result<usize, usize>
        ensures { IsPlace self.now relation key.now result }
    {
        self.list.binary_search_by(|row| row.order(relation, key))
    }

    /// The value under a key, if it has one.
    pub fn get(&self, relation: RelNo, key: &Bytes) -> Option<&Bytes>
        ensures { option_copied result ≡ value_at self.now relation key.now }
    {
        match self.place_of(relation, key) {
            Ok(place) => Some(&self.list[place].value),
            Err(_) => None,
        }
    }

    /// Puts a value under a key that has none, and says whether it had none. The only error is want
    /// of memory; the rows are then as before.
    pub fn insert(
        &mut self,
        relation: RelNo,
        key: &Bytes,
        value: &Bytes,
    ) -> Result<bool, AllocError>
        ensures fresh { IfOk result (λ fresh.
            fresh ≡ is_none (value_at self.old relation key.now)) }
        ensures ok { OnOk result
            (IsAltered self.old self.new relation key.now (inserted value.now)) }
        ensures err { OnErr result (self.new ≡ self.old) }
    {
        match self.place_of(relation, key) {
            Ok(_) => Ok(false),
            Err(place) => {
                let key = key.try_clone()?;
                let value = value.try_clone()?;
                let row = Row {
                    relation,
                    key,
                    value,
                };
                self.list.insert(place, row)?;
                Ok(true)
            }
        }
    }

    /// Replaces the value under a key that has one, and gives the old value. The only error is want
    /// of memory; the rows are then as before.
    pub fn update(
        &mut self,
        relation: RelNo,
        key: &Bytes,
        value: &Bytes,
    ) -> Result<Option<Bytes>, AllocError>
        ensures was { IfOk result (λ was. was ≡ value_at self.old relation key.now) }
        ensures ok { OnOk result
            (IsAltered self.old self.new relation key.now (updated value.now)) }
        ensures err { OnErr result (self.new ≡ self.old) }
    {
        match self.place_of(relation, key) {
            Ok(place) => {
                let value = value.try_clone()?;
                let row = &mut self.list[place];
                Ok(Some(mem::replace(&mut row.value, value)))
            }
            Err(_) => Ok(None),
        }
    }

    /// Takes away the value under a key that has one, and gives it.
    pub fn delete(&mut self, relation: RelNo, key: &Bytes) -> Option<Bytes>
        ensures was { result ≡ value_at self.old relation key.now }
        ensures rows { IsAltered self.old self.new relation key.now deleted }
    {
        match self.place_of(relation, key) {
            Ok(place) => Some(self.list.remove(place).value),
            Err(_) => None,
        }
    }

    /// A copy of one relation's rows. The only error is want of memory.
    pub fn of_relation(&self, relation: RelNo) -> Result<Rows, AllocError>
        ensures rows { IfOk result (λ rows. rows ≡ of_relation relation self.now) }
        ensures ordered { IsOrdered self.now }
    {
        let mut list = Vec::new(*self.list.allocator());
        for row in &self.list {
            if row.relation == relation {
                list.push(row.try_clone()?)?;
            }
        }
        Ok(Rows { list })
    }

    /// Whether the two are the same rows.
    pub fn equals(&self, other: &Rows) -> bool
        ensures { IsTrue result ↔ (self.now ≡ other.now) }
    {
        self == other
    }

    /// A copy of the rows. The only error is want of memory.
    pub fn try_clone(&self) -> Result<Rows, AllocError>
        ensures { IfOk result (λ copy. copy ≡ self.now) }
    {
        let list = self.list.clone()?;
        Ok(Rows { list })
    }
}
