//! The examination of two sets that are looked at together.
ghost use Rattle.std.specs.Prelude.{◌≡◌, ◌↔◌, ◌<◌, ◌∷◌, ◌≤◌, ◌+◌, [], cond, length, take, IsTrue, OnOk};
ghost use Rattle.rule_field_groups.specs.in_sets.Nodes.{HasMember};
ghost use Rattle.rule_field_groups.specs.in_sets.Read.{set_at};
ghost use Rattle.rule_field_groups.specs.Members.{fields_of, meant_sets, AreMembersOf};
ghost use Rattle.rule_field_groups.specs.Passes.{AddsGroup};
ghost use Rattle.rule_field_groups.specs.MergeState.{two_of};
ghost use Rattle.rule_merging.specs.Twos.{HaveOneObject, GoTogetherByNumbers, GoAllTogether, AgreeByNumbers, AllAgreeByNumbers, are_two, are_of, GrowsByTwo};
ghost use Rattle.rule_field_groups.specs.Compared.{compared};
ghost use Rattle.rule_field_groups.specs.Under.{sets_in};
ghost use Rattle.rule_merging.specs.Examined.{schema_of, sets_of, HasSets, ExaminesList, ExaminesPair, ExaminesPairs, ExaminesTwos, GrowsOver, GrowsOverTwo, GrowsHere};
ghost use Rattle.rule_field_groups.specs.Pairs.{each_with};
ghost use Rattle.rule_merging.specs.OfProgram.{Comes, ExaminesThese, PairsOf};

use crate::examination::Examination;
use rule_field_groups::{
    Breach, Member, MergeState, NumberRows, Pair, Pass, check_group, node_of, push_below, starts_of,
};
use std::alloc::AllocError;

/// Whether one object may have both of two fields of one key ("the parent types are equal or either is not an Object Type").
fn may_share(one: &Member<'_>, other: &Member<'_>) -> bool
    ensures { IsTrue result ↔ HaveOneObject one.now other.now }
{
    one.parent == other.parent || one.is_shared || other.is_shared
}

/// Whether two fields go together: they have one response key, and, if shapes are not compared, one object may have both.
fn go_together(pass: Pass, one: &Member<'_>, other: &Member<'_>) -> bool
    ensures { IsTrue result ↔ GoTogetherByNumbers pass one.now other.now }
{
    if one.key != other.key {
        return false;
    }
    match pass {
        Pass::Shapes => true,
        Pass::Selections => may_share(one, other),
    }
}

/// Whether both lists are empty.
fn are_empty(ones: &[usize], others: &[usize]) -> bool
    ensures { IsTrue result → (ones.now ≡ []) × (others.now ≡ []) }
{
    ones.is_empty() && others.is_empty()
}

/// Two fields, or only the first if both have the same contents.
fn list_of_two<'a, 'doc>(both: &'a [Member<'doc>], is_one: bool) -> &'a [Member<'doc>]
    requires { 1 ≤ length both.now }
    ensures { result.now ≡ cond is_one (take 1 both.now) both.now }
{
    if is_one {
        return &both[..1];
    }
    both
}

/// Whether there are more than so many breaches.
fn is_told(breaches: &[Breach], told: usize) -> bool
    ensures { IsTrue result → told < length breaches.now }
{
    breaches.len() > told
}

/// Whether the numbers of two fields show that they agree: they have one type, where shapes are compared, or else one name with one
/// list of arguments.
fn agree(pass: Pass, one: &Member<'_>, other: &Member<'_>) -> bool
    ensures { IsTrue result → AgreeByNumbers pass one.now other.now }
{
    match pass {
        Pass::Shapes => one.ty == other.ty,
        Pass::Selections => one.call == other.call,
    }
}

/// Whether the numbers of the fields of a list show that all of them agree with the first.
fn all_agree(pass: Pass, fields: &[Member<'_>]) -> bool
    ensures { IsTrue result → AllAgreeByNumbers pass fields.now }
{
    match fields.split_first() {
        None => true,
        Some((first, others)) => others.iter().all(|other| agree(pass, first, other)),
    }
}

impl<'doc> Examination<'_, 'doc> {
    /// Tells each further field of a list that does not agree with the first one; none is compared where numbers show that all agree.
    fn compare(
        &self,
        fields: &[Member<'doc>],
        breaches: &mut Vec<Breach>,
        comparisons: &mut u128,
    ) -> Result<(), AllocError>
        requires sets { HasSets self.now }
        requires members { AreMembersOf (sets_of self.now) fields.now }
        ensures told { OnOk result (AddsGroup self.now.pass (schema_of self.now) (fields_of fields.now) breaches.old breaches.new) }
        ensures more { comparisons.old ≤ comparisons.new }
        ensures counted { comparisons.new ≤ comparisons.old + compared self.now.pass fields.now }
    {
        if all_agree(self.pass, fields) {
            return Ok(());
        }
        check_group(self.pass, self.schema, fields, breaches, comparisons)
    }

    /// Compares fields that go together, and adds a list of their sets.
    fn examine_together(
        &self,
        fields: &[Member<'doc>],
        next: &mut NumberRows,
        breaches: &mut Vec<Breach>,
        comparisons: &mut u128,
    ) -> Result<(), AllocError>
        requires sets { HasSets self.now }
        requires members { AreMembersOf (sets_of self.now) fields.now }
        requires together { GoAllTogether self.now.pass (schema_of self.now) fields.now }
        ensures examined { OnOk result (ExaminesList self.now fields.now breaches.old breaches.new (sets_in (sets_of self.now) next.old) (sets_in (sets_of self.now) next.new)) }
        ensures more { comparisons.old ≤ comparisons.new }
        ensures counted { comparisons.new ≤ comparisons.old + compared self.now.pass fields.now }
    {
        self.compare(fields, breaches, comparisons)?;
        push_below(*breaches.allocator(), self.sets, fields, next)
    }

    /// Compares two fields that go together, if they were not compared before, and adds a list of their sets.
    fn examine_two_fields(
        &self,
        one: &Member<'doc>,
        other: &Member<'doc>,
        examined: &mut MergeState,
        breaches: &mut Vec<Breach>,
    ) -> Result<(), AllocError>
        requires sets { HasSets self.now }
        requires one { HasMember (sets_of self.now) one.now }
        requires other { HasMember (sets_of self.now) other.now }
        ensures examined { OnOk result (PairsOf self.now (are_two one.now other.now) examined.old examined.new breaches.old breaches.new) }
        ensures counted { GrowsByTwo self.now (are_two one.now other.now) examined.old examined.new }
    {
        if !go_together(self.pass, one, other) {
            return Ok(());
        }
        if !examined.remember_two(*one, *other)? {
            return Ok(());
        }
        let both = [*one, *other];
        let fields = list_of_two(&both, one.number == other.number);
        let comparisons = &mut examined.comparisons;
        self.examine_together(fields, &mut examined.next, breaches, comparisons)
    }

    /// Compares a field with each of the others.
    fn examine_with_each(
        &self,
        one: Member<'doc>,
        others: &[Member<'doc>],
        examined: &mut MergeState,
        breaches: &mut Vec<Breach>,
    ) -> Result<(), AllocError>
        requires sets { HasSets self.now }
        requires one { HasMember (sets_of self.now) one }
        requires others { AreMembersOf (sets_of self.now) others.now }
        ensures examined { OnOk result (PairsOf self.now (are_of (one.entry ∷ []) others.now) examined.old examined.new breaches.old breaches.new) }
        ensures counted { GrowsByTwo self.now (are_of (one.entry ∷ []) others.now) examined.old examined.new }
    {
        for other in others {
            self.examine_two_fields(&one, other, examined, breaches)?;
        }
        Ok(())
    }

    /// Compares each field of one list with each of the other, unless all of them are in one list that was examined. It
    /// stops after a field for which something is told: the conflicts could be as many as fields times fields.
    pub(crate) fn examine_each(
        &self,
        ones: &[Member<'doc>],
        others: &[Member<'doc>],
        examined: &mut MergeState,
        breaches: &mut Vec<Breach>,
    ) -> Result<(), AllocError>
        requires sets { HasSets self.now }
        requires ones { AreMembersOf (sets_of self.now) ones.now }
        requires others { AreMembersOf (sets_of self.now) others.now }
        ensures examined { OnOk result (PairsOf self.now (are_of ones.now others.now) examined.old examined.new breaches.old breaches.new) }
        ensures counted { GrowsByTwo self.now (are_of ones.now others.now) examined.old examined.new }
    {
        if examined.stand_together(ones, others) {
            return Ok(());
        }
        let told = breaches.len();
        for one in ones {
            if is_told(breaches, told) {
                return Ok(());
            }
            self.examine_with_each(*one, others, examined, breaches)?;
        }
        Ok(())
    }

    /// Compares the own fields of the two sets, and looks at what each of them spreads with the other.
    fn examine_pair(
        &self,
        pair: Pair,
        examined: &mut MergeState,
        breaches: &mut Vec<Breach>,
    ) -> Result<(), AllocError>
        requires sets { HasSets self.now }
        ensures examined { OnOk result (Comes (sets_of self.now) (ExaminesPair self.now (two_of (sets_of self.now) pair)) examined.old examined.new breaches.old breaches.new) }
        ensures counted { GrowsOverTwo self.now (two_of (sets_of self.now) pair) examined.old examined.new }
    {
        let one = pair.one as usize;
        let other = pair.other as usize;
        let sets = self.sets;
        let first = node_of(sets, one)?;
        let second = node_of(sets, other)?;
        self.examine_each(&first.members, &second.members, examined, breaches)?;
        if are_empty(&first.spreads, &second.spreads) {
            return Ok(());
        }
        let alloc = *breaches.allocator();
        let starts = starts_of(alloc, sets, &first.spreads)?;
        examined.look_at_each(sets, &starts, other)?;
        let starts = starts_of(alloc, sets, &second.spreads)?;
        examined.look_before_each(sets, one, &starts)
    }

    /// Examines the pairs that are left, the last one first, and those that are added to them, until something is told.
    fn examine_pairs(
        &self,
        examined: &mut MergeState,
        breaches: &mut Vec<Breach>,
    ) -> Result<(), AllocError>
        requires sets { HasSets self.now }
        ensures examined { OnOk result (Comes (sets_of self.now) (ExaminesPairs self.now) examined.old examined.new breaches.old breaches.new) }
        ensures counted { GrowsHere self.now examined.old examined.new }
    {
        let told = breaches.len();
        while let Some(pair) = examined.pairs.pop() {
            self.examine_pair(pair, examined, breaches)?;
            if is_told(breaches, told) {
                return Ok(());
            }
        }
        Ok(())
    }

    /// Examines what two sets select, each of them and both together, until something is told.
    pub(crate) fn examine_two(
        &self,
        one: usize,
        other: usize,
        examined: &mut MergeState,
        breaches: &mut Vec<Breach>,
    ) -> Result<(), AllocError>
        requires sets { HasSets self.now }
        ensures examined { OnOk result (ExaminesThese self.now (one ∷ other ∷ []) examined.old examined.new breaches.old breaches.new) }
        ensures counted { GrowsOver self.now (meant_sets (sets_of self.now) (one ∷ other ∷ []) ∷ []) examined.old examined.new }
    {
        examined.begin_pairs();
        examined.look_at_each(self.sets, &[one], one)?;
        examined.look_at_each(self.sets, &[one, other], other)?;
        self.examine_pairs(examined, breaches)
    }

    /// Looks at each of these sets with the other, which comes after them, and examines the pairs, until something is told.
    fn examine_with_those(
        &self,
        nodes: &[usize],
        other: usize,
        examined: &mut MergeState,
        breaches: &mut Vec<Breach>,
    ) -> Result<(), AllocError>
        requires sets { HasSets self.now }
        ensures examined { OnOk result (Comes (sets_of self.now) (ExaminesTwos self.now (each_with (meant_sets (sets_of self.now) nodes.now) (set_at (sets_of self.now) other))) examined.old examined.new breaches.old breaches.new) }
        ensures counted { GrowsOver self.now (each_with (meant_sets (sets_of self.now) nodes.now) (set_at (sets_of self.now) other)) examined.old examined.new }
    {
        examined.begin_pairs();
        examined.look_at_each(self.sets, nodes, other)?;
        self.examine_pairs(examined, breaches)
    }

    /// Examines what each two of the sets select, and what each of them selects, until something is told. Each set is
    /// examined with those before it and with itself, so that no more pairs wait than one set is in, and those that are
    /// added to them.
    pub(crate) fn examine_twos(
        &self,
        nodes: &[usize],
        examined: &mut MergeState,
        breaches: &mut Vec<Breach>,
    ) -> Result<(), AllocError>
        requires sets { HasSets self.now }
        ensures examined { OnOk result (ExaminesThese self.now nodes.now examined.old examined.new breaches.old breaches.new) }
        ensures counted { GrowsOver self.now (meant_sets (sets_of self.now) nodes.now ∷ []) examined.old examined.new }
    {
        let told = breaches.len();
        let mut seen = 0;
        for node in nodes {
            if is_told(breaches, told) {
                return Ok(());
            }
            seen += 1;
            self.examine_with_those(&nodes[..seen], *node, examined, breaches)?;
        }
        Ok(())
    }
}
