//! The examination of lists, level by level.
ghost use Rattle.std.specs.Prelude.{◌≡◌, ◌<◌, ◌≤◌, ◌+◌, ◌∷◌, [], length, get_or, map, IsTrue, IfOk, OnOk};
ghost use Rattle.list_interner.specs.NumberRows.{rows_of};
ghost use Rattle.rule_field_groups.specs.in_sets.Read.{set_at};
ghost use Rattle.rule_field_groups.specs.Members.{fields_of, meant_sets, AreMembersOf};
ghost use Rattle.rule_field_groups.specs.Below.{IsMergedIn};
ghost use Rattle.rule_field_groups.specs.Compared.{compared};
ghost use Rattle.rule_field_groups.specs.KeyGroups.{parts_of, compared_in};
ghost use Rattle.rule_field_groups.specs.Under.{sets_in, IsGroupOf};
ghost use Rattle.rule_merging.specs.Examined.{HasSets, sets_of, document_of, HaveFields, ExaminesGroups, ExaminesList, GrowsOver};
ghost use Rattle.rule_merging.specs.OfProgram.{Comes, ExaminesLevel, ExaminesFrom, ExaminesThese};

use document_typed_operations::ExecutableDocument;
use rule_field_groups::{
    Breach, FieldSets, KeyGroup, Member, MergeState, MergedList, NumberLists, NumberRows,
    NumberSet, Pass, Schema, Toll, check_key_group, groups_of, merged_list, push_lists_below,
};
use std::alloc::{AllocError, Global};
use std::mem::replace;

/// The greatest length of a chain of fields, each selected by the one before.
const CHAIN_BOUND: usize = 128;

/// What lists are examined for, and the document that they are of.
#[derive(Clone, Copy)]
pub(crate) struct Examination<'a, 'doc> {
    pub(crate) pass: Pass,
    pub(crate) schema: &'doc Schema,
    pub(crate) document: &'doc ExecutableDocument,
    /// The sets of the document.
    pub(crate) sets: &'a FieldSets<'doc>,
}

/// A level of one list, which has this set alone.
fn first_level(alloc: Global, start: usize) -> Result<NumberRows, AllocError>
    ensures { IfOk result (λ level. rows_of level ≡ (start ∷ []) ∷ []) }
{
    let mut level = NumberRows::new(alloc);
    level.push(&[], &[start])?;
    Ok(level)
}

/// Whether a list is whole, and has so few fields that comparing these two by two is better than comparing so many sets.
fn has_few(list: &MergedList<'_>, sets: usize) -> bool
    ensures { IsTrue result → IsTrue list.now.is_whole }
{
    list.is_whole && list.members.len() / 2 <= sets
}

impl<'doc> Examination<'_, 'doc> {
    /// Compares the fields of one key, and adds the lists of their sets.
    fn examine_group(
        &self,
        group: &KeyGroup<'doc>,
        next: &mut NumberRows,
        breaches: &mut Vec<Breach>,
        comparisons: &mut u128,
    ) -> Result<(), AllocError>
        requires sets { HasSets self.now }
        requires members { IsGroupOf (sets_of self.now) group.now }
        ensures examined { OnOk result (ExaminesGroups self.now (map fields_of (parts_of group.now)) breaches.old breaches.new (sets_in (sets_of self.now) next.old) (sets_in (sets_of self.now) next.new)) }
        ensures more { comparisons.old ≤ comparisons.new }
        ensures counted { comparisons.new ≤ comparisons.old + compared_in self.now.pass group.now }
    {
        check_key_group(self.pass, self.schema, group, breaches, comparisons)?;
        let alloc = *breaches.allocator();
        push_lists_below(alloc, self.sets, group, next)
    }

    /// Examines a list: compares the fields of each group, and adds the lists of their sets.
    fn examine_list(
        &self,
        list: &[Member<'doc>],
        next: &mut NumberRows,
        breaches: &mut Vec<Breach>,
        comparisons: &mut u128,
    ) -> Result<(), AllocError>
        requires sets { HasSets self.now }
        requires members { AreMembersOf (sets_of self.now) list.now }
        ensures examined { OnOk result (ExaminesList self.now list.now breaches.old breaches.new (sets_in (sets_of self.now) next.old) (sets_in (sets_of self.now) next.new)) }
        ensures more { comparisons.old ≤ comparisons.new }
        ensures counted { comparisons.new ≤ comparisons.old + compared self.now.pass list.now }
    {
        let groups = groups_of(*breaches.allocator(), self.pass, self.schema, list)?;
        for group in &groups {
            self.examine_group(group, next, breaches, comparisons)?;
        }
        Ok(())
    }

    /// Examines what some sets select, if a list of it is not paid: two by two the fields, if they are few for so many sets, or
    /// otherwise the sets.
    fn examine_unpaid(
        &self,
        nodes: &[usize],
        list: &MergedList<'doc>,
        examined: &mut MergeState,
        breaches: &mut Vec<Breach>,
    ) -> Result<(), AllocError>
        requires sets { HasSets self.now }
        requires members { AreMembersOf (sets_of self.now) list.now.members.items }
        requires whole { IsTrue list.now.is_whole → IsMergedIn (document_of self.now) (meant_sets (sets_of self.now) nodes.now) list.now.members.items }
        ensures examined { OnOk result (ExaminesThese self.now nodes.now examined.old examined.new breaches.old breaches.new) }
        ensures counted { GrowsOver self.now (meant_sets (sets_of self.now) nodes.now ∷ []) examined.old examined.new }
    {
        if !has_few(list, nodes.len()) {
            return self.examine_twos(nodes, examined, breaches);
        }
        self.examine_each(&list.members, &list.members, examined, breaches)
    }

    /// Examines what some sets select: all of it, unless a list with the same contents was examined before; or, if that is not
    /// paid, what each two of them select.
    fn examine_paid(
        &self,
        nodes: &[usize],
        examined: &mut MergeState,
        breaches: &mut Vec<Breach>,
    ) -> Result<(), AllocError>
        requires sets { HasSets self.now }
        ensures examined { OnOk result (ExaminesThese self.now nodes.now examined.old examined.new breaches.old breaches.new) }
        ensures counted { GrowsOver self.now (meant_sets (sets_of self.now) nodes.now ∷ []) examined.old examined.new }
    {
        let alloc = *breaches.allocator();
        let mut toll = examined.toll();
        // what is not paid takes as many steps in any case, to look at the sets in pairs
        toll.paid = toll.paid.max(nodes.len().saturating_mul(nodes.len()));
        let list = merged_list(alloc, self.sets, toll, nodes)?;
        match examined.remember_paid(alloc, &list)? {
            None => self.examine_unpaid(nodes, &list, examined, breaches),
            Some(false) => Ok(()),
            Some(true) => {
                let comparisons = &mut examined.comparisons;
                self.examine_list(&list.members, &mut examined.next, breaches, comparisons)
            }
        }
    }

    /// Examines what some sets select, unless this was looked at before. What is skipped is remembered only by its pairs.
    fn examine_once(
        &self,
        nodes: &[usize],
        examined: &mut MergeState,
        breaches: &mut Vec<Breach>,
    ) -> Result<(), AllocError>
        requires sets { HasSets self.now }
        ensures examined { OnOk result (ExaminesThese self.now nodes.now examined.old examined.new breaches.old breaches.new) }
        ensures counted { GrowsOver self.now (meant_sets (sets_of self.now) nodes.now ∷ []) examined.old examined.new }
    {
        if examined.skips(nodes) {
            return self.examine_twos(nodes, examined, breaches);
        }
        // the lists are put back after this one is examined: only then is what it selects in the examined lists
        let alloc = *breaches.allocator();
        let mut expanded = replace(&mut examined.expanded, NumberLists::new(alloc));
        if MergeState::expand(&mut expanded, alloc, self.sets, nodes)? {
            self.examine_paid(nodes, examined, breaches)?;
        }
        examined.expanded = expanded;
        Ok(())
    }

    /// Examines the list at an index of a level. Its nodes are read to `nodes`, if they are not two that are looked at in pairs.
    fn examine_at(
        &self,
        level: &NumberRows,
        place: usize,
        nodes: &mut Vec<usize>,
        examined: &mut MergeState,
        breaches: &mut Vec<Breach>,
    ) -> Result<(), AllocError>
        requires sets { HasSets self.now }
        requires place { place < length (rows_of level.now) }
        ensures examined { OnOk result (ExaminesThese self.now (get_or (rows_of level.now) place []) examined.old examined.new breaches.old breaches.new) }
        ensures counted { GrowsOver self.now (meant_sets (sets_of self.now) (get_or (rows_of level.now) place []) ∷ []) examined.old examined.new }
    {
        if let Some((one, other)) = level.two_at(place) {
            if examined.skips(&[one, other]) {
                return self.examine_two(one, other, examined, breaches);
            }
        }
        level.read(place, nodes)?;
        self.examine_once(nodes, examined, breaches)
    }

    /// Examines the lists of one level. Returns the lists of the next one.
    fn examine_level(
        &self,
        level: &NumberRows,
        examined: &mut MergeState,
        breaches: &mut Vec<Breach>,
    ) -> Result<NumberRows, AllocError>
        requires sets { HasSets self.now }
        ensures examined { IfOk result (λ next. ExaminesLevel self.now level.now examined.old examined.new breaches.old breaches.new next) }
        ensures counted { GrowsOver self.now (sets_in (sets_of self.now) level.now) examined.old examined.new }
    {
        let alloc = *breaches.allocator();
        examined.next = NumberRows::new(alloc);
        let mut nodes = Vec::new(alloc);
        for place in 0..level.len() {
            self.examine_at(level, place, &mut nodes, examined, breaches)?;
        }
        Ok(replace(&mut examined.next, NumberRows::new(alloc)))
    }

    /// Whether these sets select a field.
    fn selects_fields(&self, alloc: Global, nodes: &[usize]) -> Result<bool, AllocError>
        requires sets { HasSets self.now }
        ensures { IfOk result (λ some. HaveFields (document_of self.now) some (meant_sets (sets_of self.now) nodes.now ∷ [])) }
    {
        let met = NumberSet::new(alloc);
        let toll = Toll {
            met: &met,
            paid: usize::MAX,
            each: 0,
        };
        let list = merged_list(alloc, self.sets, toll, nodes)?;
        if !list.members.is_empty() {
            return Ok(true);
        }
        if list.is_whole {
            return Ok(false);
        }
        Err(AllocError)
    }

    /// Whether one of the lists of sets selects a field. If there is too much to count, it fails as if memory were refused.
    fn have_fields(&self, alloc: Global, level: &NumberRows) -> Result<bool, AllocError>
        requires sets { HasSets self.now }
        ensures { IfOk result (λ some. HaveFields (document_of self.now) some (sets_in (sets_of self.now) level.now)) }
    {
        let mut nodes = Vec::new(alloc);
        for place in 0..level.len() {
            level.read(place, &mut nodes)?;
            if self.selects_fields(alloc, &nodes)? {
                return Ok(true);
            }
        }
        Ok(false)
    }

    /// Examines what a set selects and all below it, to 128 levels. Answers whether fields are left below these.
    pub(crate) fn examine_all(
        &self,
        start: usize,
        examined: &mut MergeState,
        breaches: &mut Vec<Breach>,
    ) -> Result<bool, AllocError>
        requires sets { HasSets self.now }
        ensures examined { IfOk result (λ left. ExaminesFrom self.now start examined.old examined.new breaches.old breaches.new left) }
        ensures counted { GrowsOver self.now ((set_at (sets_of self.now) start ∷ []) ∷ []) examined.old examined.new }
    {
        let alloc = *breaches.allocator();
        let mut level = first_level(alloc, start)?;
        let mut length = 0;
        while length < CHAIN_BOUND && level.len() != 0 {
            level = self.examine_level(&level, examined, breaches)?;
            length += 1;
        }
        self.have_fields(alloc, &level)
    }
}
