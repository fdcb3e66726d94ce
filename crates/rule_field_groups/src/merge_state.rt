//! What was examined.
ghost use Rattle.std.specs.Prelude.{◌≡◌, ◌∷◌, [], map, is_some, Contains, IsTrue, IfOk, OnErr};
ghost use Rattle.rule_selection_queries.specs.in_document_definitions.ReadFields.{list_read};
ghost use Rattle.rule_field_sets.specs.Nodes.{AreSets, HasMember};
ghost use Rattle.list_interner.specs.NumberLists.{lists_kept, list_at};
ghost use Rattle.rule_field_sets.specs.Read.{set_at, set_content_at};
ghost use Rattle.rule_field_sets.specs.declared.field_sets.FieldSets.{FieldSets};
ghost use Rattle.rule_field_groups.specs.Members.{contents_of, meant_sets, read_sets, AreMembersOf, contents_of_two};
ghost use Rattle.rule_field_groups.specs.Under.{sets_in};
ghost use Rattle.rule_field_groups.specs.Paid.{OnlyMeets, Pays, IsPaidIf, no_account};
ghost use Rattle.rule_field_groups.specs.MergeState.{remembered, kept_of, account_of, beside_of, nothing_kept, AllAreInOne, Remembers, RemembersPaid, LooksAt, Expands, IsKnown};

use crate::budget::{FOR_EACH_FIELD, charge, left_of};
use crate::node_walk::{MergedList, Toll};
use crate::nodes::number_of;
use list_interner::{NumberLists, NumberPairs, NumberRows, NumberSet, short};
use rule_field_sets::{FieldSets, Member};
use std::alloc::{AllocError, Global};

/// Comparing so many pairs of fields takes as long as looking up one field in a list.
const FOR_EACH_LOOK: usize = 4;

/// Two sets that are looked at together, by their nodes: the fields of one with those of the other. Many may wait, so a pair
/// is small.
#[derive(Clone, Copy)]
pub struct Pair {
    pub one: u32,
    pub other: u32,
}

impl Pair {
    /// The pair of these nodes.
    pub fn new(one: usize, other: usize) -> Result<Pair, AllocError>
        ensures { IfOk result (λ pair. (pair.one ≡ one) × (pair.other ≡ other)) }
    {
        Ok(Pair {
            one: short(one)?,
            other: short(other)?,
        })
    }
}

/// The lists of fields that were examined, each once, and the lists of sets that were looked at: fields that these select
/// and that go together are in lists that were examined. All are known by numbers; lists and pairs with the same numbers are
/// one, in any order.
pub struct MergeState {
    lists: NumberLists,
    /// The fields that were met in lists of sets.
    met: NumberSet,
    /// The lists of sets that were looked at.
    pub expanded: NumberLists,
    /// The pairs that were looked at, or are left: each once.
    looked: NumberPairs,
    /// Those of these pairs that are left.
    pub pairs: Vec<Pair>,
    /// The lists of sets that are left for the next level, by their nodes.
    pub next: NumberRows,
    /// How many steps the walks over sets took that were paid.
    spent: usize,
    /// Whether some list was not paid.
    is_spent: bool,
    /// How often shapes were compared.
    pub comparisons: u128,
}

// Not derived: a derived drop is proved again in each crate that drops one.
impl Drop for MergeState {
    fn drop(self) {
        let MergeState {
            lists: _,
            met: _,
            expanded: _,
            looked: _,
            pairs: _,
            next: _,
            spent: _,
            is_spent: _,
            comparisons: _,
        } = self;
    }
}

/// The numbers of these fields.
fn numbers_of(alloc: Global, list: &[Member<'_>]) -> Result<Vec<usize>, AllocError>
    ensures { IfOk result (λ numbers. numbers.items ≡ map (λ m. m.number) list.now) }
{
    let mut numbers = Vec::with_capacity(alloc, list.len())?;
    for field in list {
        numbers.push(field.number)?;
    }
    Ok(numbers)
}

/// The numbers of the sets of these nodes.
fn numbers_of_nodes(
    alloc: Global,
    sets: &FieldSets<'_>,
    nodes: &[usize],
) -> Result<Vec<usize>, AllocError>
    requires { AreSets sets.now }
    ensures { IfOk result (λ numbers. map (set_content_at sets.now) numbers.items ≡ read_sets (meant_sets sets.now nodes.now)) }
{
    let mut numbers = Vec::with_capacity(alloc, nodes.len())?;
    for node in nodes {
        numbers.push(number_of(sets, *node)?)?;
    }
    Ok(numbers)
}

/// Whether comparing so many pairs of fields takes longer than looking up so many fields in a list.
fn are_many(ones: usize, others: usize) -> bool {
    ones.saturating_mul(others) / FOR_EACH_LOOK > ones.saturating_add(others)
}

impl MergeState {
    /// Nothing remembered yet.
    pub fn new(alloc: Global) -> MergeState
        ensures kept { (w : FieldSets) → kept_of w result ≡ nothing_kept }
        ensures account { (w : FieldSets) → account_of w result ≡ no_account }
    {
        MergeState {
            lists: NumberLists::new(alloc),
            met: NumberSet::new(alloc),
            expanded: NumberLists::new(alloc),
            looked: NumberPairs::new(alloc),
            pairs: Vec::new(alloc),
            next: NumberRows::new(alloc),
            spent: 0,
            is_spent: false,
            comparisons: 0,
        }
    }

    /// Whether all numbers that are remembered are below these: those of fields, and those of sets.
    pub fn is_known(&self, fields: usize, sets: usize) -> bool
        ensures { IsTrue result → IsKnown fields sets self.now }
    {
        self.lists.bound() <= fields
            && self.met.bound() <= fields
            && self.expanded.bound() <= sets
            && self.looked.bound() <= sets
    }

    /// Remembers two fields as a list: of one field, if both have the same contents. Returns whether the list is new.
    pub fn remember_two(&mut self, one: Member<'_>, other: Member<'_>) -> Result<bool, AllocError>
        ensures remembers { IfOk result (λ is_new. (w : FieldSets) → AreSets w → HasMember w one.entry → HasMember w other.entry → Remembers (kept_of w self.old) (contents_of_two one.entry other.entry) is_new (kept_of w self.new)) }
        ensures refused { OnErr result ((w : FieldSets) → kept_of w self.new ≡ kept_of w self.old) }
        ensures account { (w : FieldSets) → account_of w self.new ≡ record (account_of w self.old) { lists = remembered w self.new } }
        ensures next { (w : FieldSets) → sets_in w self.new.next ≡ sets_in w self.old.next }
    {
        self.lists.remember_two(one.number, other.number)
    }

    /// Whether the list of fields at an index has all of these.
    fn has_all(&self, place: usize, fields: &[Member<'_>]) -> bool
        ensures { IsTrue result → (m : Member) → Contains fields.now m → Contains (list_at self.now.lists place) m.number }
    {
        for field in fields {
            if !self.lists.is_at(place, field.number) {
                return false;
            }
        }
        true
    }

    /// The index of the longest list that was examined and has the first of these fields, if there is one.
    fn place_of(&self, fields: &[Member<'_>]) -> Option<usize> {
        match fields.first() {
            None => None,
            Some(field) => self.lists.place_of(field.number),
        }
    }

    /// Whether all of these fields are found to be in one list that was examined. It answers no if they are so few that
    /// comparing them takes less time.
    pub fn stand_together(&self, ones: &[Member<'_>], others: &[Member<'_>]) -> bool
        ensures { IsTrue result → (w : FieldSets) → AreSets w → AreMembersOf w ones.now → AreMembersOf w others.now → AllAreInOne (remembered w self.now) (contents_of ones.now) (contents_of others.now) }
    {
        if !are_many(ones.len(), others.len()) {
            return false;
        }
        let Some(place) = self.place_of(ones) else {
            return false;
        };
        if !self.has_all(place, ones) {
            return false;
        }
        self.has_all(place, others)
    }

    /// Notes that the sets of two nodes are looked at together. Returns whether no two sets with the same contents were
    /// noted before.
    pub(crate) fn note_pair(
        &mut self,
        sets: &FieldSets<'_>,
        one: usize,
        other: usize,
    ) -> Result<bool, AllocError>
        requires { AreSets sets.now }
        ensures looks { IfOk result (λ is_new. LooksAt (kept_of sets.now self.old) (read_sets (set_at sets.now one ∷ set_at sets.now other ∷ [])) is_new (kept_of sets.now self.new)) }
        ensures beside { beside_of sets.now self.new ≡ beside_of sets.now self.old }
    {
        self.looked
            .remember(number_of(sets, one)?, number_of(sets, other)?)
    }

    /// Leaves no pair to look at.
    pub fn begin_pairs(&mut self)
        ensures kept { (w : FieldSets) → kept_of w self.new ≡ record (kept_of w self.old) { pairs = [] } }
        ensures beside { (w : FieldSets) → beside_of w self.new ≡ beside_of w self.old }
    {
        self.pairs.clear();
    }

    /// Whether sets are looked at in pairs before they are expanded: there are two, and some list was not paid. There may be
    /// as many lists of two sets as sets times sets.
    pub fn skips(&self, nodes: &[usize]) -> bool {
        self.is_spent && nodes.len() == 2
    }

    /// What the walk over the next list of sets may cost.
    pub fn toll(&self) -> Toll<'_> {
        Toll {
            met: &self.met,
            paid: left_of(self.spent, self.met.len()),
            each: FOR_EACH_FIELD,
        }
    }

    /// Notes that these fields were met.
    fn meet(&mut self, list: &[Member<'_>]) -> Result<(), AllocError>
        ensures meets { (w : FieldSets) → AreSets w → AreMembersOf w list.now → OnlyMeets (contents_of list.now) (account_of w self.old) (account_of w self.new) }
        ensures same { self.new ≡ record self.old { met = self.new.met } }
    {
        for field in list {
            self.met.insert(field.number)?;
        }
        Ok(())
    }

    /// Remembers the merged list of some sets, if it is whole and may be examined: its cost is paid by fields that are new.
    /// Returns whether no list with the same contents was remembered before; or nothing, if it is not paid.
    pub fn remember_paid(
        &mut self,
        alloc: Global,
        list: &MergedList<'_>,
    ) -> Result<Option<bool>, AllocError>
        ensures remembers { IfOk result (λ is_new. (w : FieldSets) → AreSets w → AreMembersOf w list.now.members.items → RemembersPaid (kept_of w self.old) (contents_of list.now.members.items) is_new (kept_of w self.new)) }
        ensures whole { IfOk result (λ is_new. IsTrue (is_some is_new) → IsTrue list.now.is_whole) }
        ensures refused { OnErr result ((w : FieldSets) → kept_of w self.new ≡ kept_of w self.old) }
        ensures pays { (w : FieldSets) → AreSets w → AreMembersOf w list.now.members.items → Pays (contents_of list.now.members.items) (account_of w self.old) (account_of w self.new) }
        ensures paid { IfOk result (λ is_new. (w : FieldSets) → IsPaidIf (is_some is_new) (contents_of list.now.members.items) (account_of w self.old) (account_of w self.new)) }
        ensures next { (w : FieldSets) → sets_in w self.new.next ≡ sets_in w self.old.next }
    {
        self.meet(&list.members)?;
        let steps = list.steps.max(list.members.len());
        match charge(self.spent, steps, self.met.len()) {
            Some(spent) => self.spent = spent,
            None => {
                self.is_spent = true;
                return Ok(None);
            }
        }
        if !list.is_whole {
            self.is_spent = true;
            return Ok(None);
        }
        let numbers = numbers_of(alloc, &list.members)?;
        let is_new = self.lists.remember(numbers)?;
        Ok(Some(is_new))
    }

    /// Notes that a list of sets is looked at. Returns whether no list with the same contents was noted before.
    pub fn expand(
        expanded: &mut NumberLists,
        alloc: Global,
        sets: &FieldSets<'_>,
        nodes: &[usize],
    ) -> Result<bool, AllocError>
        requires { AreSets sets.now }
        ensures expands { IfOk result (λ is_new. Expands (map (map (set_content_at sets.now)) (lists_kept expanded.old)) (read_sets (meant_sets sets.now nodes.now)) is_new (map (map (set_content_at sets.now)) (lists_kept expanded.new))) }
        ensures refused { OnErr result (lists_kept expanded.new ≡ lists_kept expanded.old) }
    {
        let numbers = numbers_of_nodes(alloc, sets, nodes)?;
        expanded.remember(numbers)
    }
}
