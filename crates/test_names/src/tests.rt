//! Each public call once, and devices that stop at each byte.
ghost use Rattle.std.specs.Prelude.{◌≡◌, ◌+◌, ◌<◌, ◌^◌};

use graphql_names::{
    Cut, Device, Ending, FileId, Files, InvalidNameError, Name, NameError, Node, NodeStr,
    SourceSpan, Spent, TextPart, name,
};
use std::alloc::{AllocError, Global};
use std::cmp::Ordering;
use std::fmt::Display;
use std::hash::{DefaultHasher, Hash, Hasher};
use std::io;
use std::io::ErrorKind;
use std::process::Abort;
use std::rc::RcStr;

/// The condition holds.
fn hold(rt: &impl Abort, condition: bool, what: &str) {
    assert!(rt; condition, "{what}");
}

/// What is made, if memory suffices.
fn got<T: Drop, E: Drop>(rt: &impl Abort, made: Result<T, E>) -> T {
    made.ok().expect(rt, "it is made")
}

/// The two places are the same.
fn same_place(rt: &impl Abort, found: Option<SourceSpan>, wanted: Option<SourceSpan>) {
    hold(rt, found == wanted, "the place");
}

/// The value prints this text.
fn prints<T: Display>(rt: &impl Abort, alloc: Global, value: &T, wanted: &str) {
    let text = got(rt, value.to_string(alloc));
    hold(rt, text.as_str() == wanted, wanted);
}

/// The next file has this number, or none is left.
fn counts(rt: &impl Abort, files: &mut Files, wanted: Result<FileId, Spent>) {
    let next = files.next();
    hold(rt, next == wanted, "the number of the next file");
}

#[test]
fn counts_files(rt: HostRuntime) {
    let mut files = Files::new();
    counts(&rt, &mut files, Ok(FileId(1)));
    counts(&rt, &mut files, Ok(FileId(2)));
    let mut last = Files::starting_at(u64::MAX - 1);
    counts(&rt, &mut last, Ok(FileId(u64::MAX - 1)));
    counts(&rt, &mut last, Err(Spent));
    counts(&rt, &mut last, Err(Spent));
    prints(&rt, rt.alloc(), &Spent, "numbers are spent");
}

fn span(file: u64, offset: usize, length: usize) -> SourceSpan
    requires { offset + length < 2 ^ 64 }
    ensures { result.length ≡ length }
{
    SourceSpan {
        file_id: FileId(file),
        offset,
        length,
    }
}

/// What begins with the first place, of 5 bytes from 10, and ends with the other is at the third.
fn joins(rt: &impl Abort, end: SourceSpan, whole: SourceSpan) {
    let first = span(1, 10, 5);
    same_place(
        rt,
        SourceSpan::recompose(Some(first), Some(end)),
        Some(whole),
    );
    same_place(rt, SourceSpan::recompose(None, Some(end)), Some(end));
    same_place(rt, SourceSpan::recompose(Some(end), None), Some(end));
}

#[test]
fn puts_places_together(rt: HostRuntime) {
    joins(&rt, span(1, 20, 3), span(1, 10, 13));
    joins(&rt, span(1, 12, 1), span(1, 10, 3));
    joins(&rt, span(1, 5, 7), span(1, 10, 2));
    joins(&rt, span(1, 5, 5), span(1, 10, 0));
    joins(&rt, span(1, 5, 4), span(1, 10, 5));
    joins(&rt, span(2, 20, 3), span(2, 20, 3));
    same_place(&rt, SourceSpan::recompose(None, None), None);
}

/// Whether a name was made of the text, and has it, or the text was refused as no name.
fn is_as_told(made: Result<Name, NameError>, text: &str, valid: bool) -> bool {
    match made {
        Ok(name) => valid && name.eq_str(text),
        Err(NameError::InvalidName(InvalidNameError)) => !valid,
        Err(_) => false,
    }
}

/// The same for the literal.
fn is_fixed_as_told(text: &'static str, valid: bool) -> bool {
    match Name::new_static(text) {
        Ok(name) => valid && name.eq_str(text),
        Err(InvalidNameError) => !valid,
    }
}

/// The text is a name, or is none.
fn tells_name(rt: &impl Abort, alloc: Global, text: &'static str, valid: bool) {
    let is_made = is_as_told(Name::new(alloc, text), text, valid);
    let is_fixed = is_fixed_as_told(text, valid);
    hold(
        rt,
        (Name::is_valid_syntax(text) == valid) & is_made & is_fixed,
        text,
    );
}

#[test]
fn tells_names(rt: HostRuntime) {
    let alloc = rt.alloc();
    for text in ["a", "_", "__typename", "aZ09_"] {
        tells_name(&rt, alloc, text, true);
    }
    for text in ["", "9a", "a-b", "a ", "é", "aé"] {
        tells_name(&rt, alloc, text, false);
    }
    let refused = NameError::InvalidName(InvalidNameError);
    prints(&rt, alloc, &refused, "the text is not a name");
    prints(&rt, alloc, &NameError::Memory, "out of memory");
}

fn hash_of<T: Hash>(value: &T) -> u64 {
    let mut hasher = DefaultHasher::default();
    value.hash(&mut hasher);
    hasher.finish()
}

/// The values are equal, and so are their hashes.
fn alike<T: PartialEq + Hash>(rt: &impl Abort, one: &T, other: &T) {
    let is_so = (*one == *other) & (hash_of(one) == hash_of(other));
    hold(rt, is_so, "equal values and hashes");
}

/// The name is the placed one, and has the text `query`.
fn is_query(rt: &impl Abort, name: &Name, placed: &Name) {
    alike(rt, name, placed);
    hold(rt, (name.as_str() == "query") & (name.len() == 5), "a text");
}

/// `query`, at a place.
fn placed_name(alloc: Global) -> Result<Name, AllocError> {
    Ok(Name::new_unchecked(alloc, "query")?.with_location(span(1, 2, 5)))
}

/// A name of the text that the name shares, if that is owned.
fn shared_name(alloc: Global, name: &Name) -> Option<Name> {
    match name.to_cloned_arc(alloc) {
        Ok(Some(text)) => Some(Name::from_arc_unchecked(text)),
        _ => None,
    }
}

/// The literal's text is lent unchanged, and an owned one is not.
fn lends_literal(rt: &impl Abort, alloc: Global, literal: &Name, placed: &Name) {
    let is_lent = literal.as_static_str() == Some("query");
    let shared = got(rt, literal.to_cloned_arc(alloc));
    let is_owned = placed.as_static_str().is_none() & shared.is_none();
    hold(rt, is_lent & is_owned, "a literal, and an owned text");
}

#[test]
fn compares_names_by_text(rt: HostRuntime) {
    let alloc = rt.alloc();
    let placed = got(&rt, placed_name(alloc));
    let copy = got(&rt, placed.clone());
    same_place(&rt, placed.location(), Some(span(1, 2, 5)));
    same_place(&rt, copy.location(), Some(span(1, 2, 5)));
    is_query(&rt, &copy, &placed);
    let literal = name!("query");
    lends_literal(&rt, alloc, &literal, &placed);
    is_query(&rt, &literal, &placed);
    is_query(&rt, &name!(query), &placed);
    prints(&rt, alloc, &placed, "query");
}

#[test]
fn shares_the_text_of_a_name(rt: HostRuntime) {
    let alloc = rt.alloc();
    let placed = got(&rt, placed_name(alloc));
    let shared = shared_name(alloc, &placed).expect(&rt, "a shared text");
    same_place(&rt, shared.location(), None);
    is_query(&rt, &shared, &placed);
}

/// A name of the text between two braces.
fn name_in_braces(alloc: Global) -> Result<Name, AllocError> {
    let whole = RcStr::from_str(alloc, "{query}")?;
    Ok(Name::from_part_unchecked(TextPart::new(&whole, 1, 6)?))
}

#[test]
fn names_a_part_of_a_text(rt: HostRuntime) {
    let alloc = rt.alloc();
    let part = got(&rt, name_in_braces(alloc));
    is_query(&rt, &part, &name!("query"));
    is_query(&rt, &got(&rt, part.clone()), &part);
    let shared = shared_name(alloc, &part).expect(&rt, "a copy of the part");
    is_query(&rt, &shared, &part);
}

#[test]
fn orders_names(rt: HostRuntime) {
    let short = name!("a");
    let long = name!("aa");
    let is_so = (name!("b").cmp(&long) == Ordering::Greater)
        & (short.cmp(&long) == Ordering::Less)
        & (short != name!("A"));
    hold(
        &rt,
        is_so,
        "b comes after aa, a before aa, and case matters",
    );
}

/// The node has this value.
fn has(rt: &impl Abort, node: &Node<u8>, wanted: u8) {
    let is_so = (*node.content() == wanted) & (**node == wanted);
    hold(rt, is_so, "the value of a node");
}

/// Gives a node that shares its value with no other another value.
fn overwrite(rt: &impl Abort, node: &mut Node<u8>, wanted: u8) {
    match node.get_mut() {
        Some(value) => *value = wanted,
        None => hold(rt, false, "no other node shares the value"),
    }
}

/// Gives the node alone another value.
fn write(rt: &impl Abort, node: &mut Node<u8>, wanted: u8) {
    match node.make_mut() {
        Ok(value) => *value = wanted,
        Err(_) => hold(rt, false, "memory"),
    }
}

/// The two share a value of 7, up to where the one is given another.
fn come_apart(rt: &impl Abort, node: &mut Node<u8>, copy: &Node<u8>) {
    hold(rt, node.get_mut().is_none(), "another node shares it");
    write(rt, node, 8);
    has(rt, copy, 7);
    has(rt, node, 8);
    overwrite(rt, node, 7);
    alike(rt, node, copy);
}

#[test]
fn shares_nodes(rt: HostRuntime) {
    let mut node = got(&rt, Node::new_parsed(rt.alloc(), 7u8, span(0, 2, 5)));
    let copy = got(&rt, node.clone());
    come_apart(&rt, &mut node, &copy);
    same_place(&rt, node.location(), Some(span(0, 2, 5)));
}

#[test]
fn ignores_places_of_nodes(rt: HostRuntime) {
    let alloc = rt.alloc();
    let node = got(&rt, Node::new_parsed(alloc, 7u8, span(0, 2, 5)));
    let plain = got(&rt, Node::new(alloc, 7u8));
    hold(
        &rt,
        node.is_built_in() & !plain.is_built_in(),
        "a built-in node",
    );
    alike(&rt, &plain, &node);
    let same = got(&rt, node.same_location(alloc, 9u8));
    same_place(&rt, same.location(), node.location());
    has(&rt, &same, 9);
    prints(&rt, alloc, &same, "9");
}

#[test]
fn shares_texts(rt: HostRuntime) {
    let alloc = rt.alloc();
    let text = got(&rt, NodeStr::new_str_parsed(alloc, "a é", span(0, 2, 8)));
    let copy = got(&rt, text.clone());
    same_place(&rt, copy.location(), Some(span(0, 2, 8)));
    alike(&rt, &copy, &text);
    let is_so = text.is_built_in() & text.starts_with("a ");
    hold(&rt, is_so, "a text, and a built-in one");
    prints(&rt, alloc, &text, "a é");
}

#[test]
fn takes_texts_as_they_are(rt: HostRuntime) {
    let alloc = rt.alloc();
    let text = got(&rt, String::from_str(alloc, "a é"));
    let kept = got(&rt, NodeStr::from_string_parsed(text, span(0, 2, 8)));
    same_place(&rt, kept.location(), Some(span(0, 2, 8)));
    prints(&rt, alloc, &kept, "a é");
}

/// What stands between the quotes of a text, with its place.
fn text_in_quotes(alloc: Global) -> Result<NodeStr, AllocError> {
    let whole = RcStr::from_str(alloc, "é: \"a é\" b")?;
    let quoted = TextPart::new(&whole, 4, 10)?;
    Ok(NodeStr::from_part_parsed(quoted.narrowed(1, 5), span(0, 4, 6)))
}

#[test]
fn takes_parts_of_texts_as_they_are(rt: HostRuntime) {
    let alloc = rt.alloc();
    let part = got(&rt, text_in_quotes(alloc));
    same_place(&rt, part.location(), Some(span(0, 4, 6)));
    prints(&rt, alloc, &part, "a é");
    alike(&rt, &part, &got(&rt, NodeStr::new_str(alloc, "a é")));
}

#[test]
fn ignores_places_of_texts(rt: HostRuntime) {
    let text = got(
        &rt,
        NodeStr::new_str_parsed(rt.alloc(), "a é", span(0, 2, 8)),
    );
    let plain = got(&rt, NodeStr::new_str(rt.alloc(), "a é"));
    same_place(&rt, plain.location(), None);
    alike(&rt, &plain, &text);
    let is_so = !plain.is_built_in() & (plain.as_str() == "a é");
    hold(&rt, is_so, "a text, and none that is built in");
}

/// How many bytes a device took or gave, or the greatest number if it failed.
fn count_of(taken: io::Result<usize>) -> usize {
    match taken {
        Ok(count) => count,
        Err(_) => usize::MAX,
    }
}

/// The device reads one byte, this one.
fn reads<'a>(rt: &impl Abort, device: &mut Device<Cut<&'a [u8]>>, wanted: u8) {
    let mut chunk = [0u8; 4];
    let count = count_of(device.read(&mut chunk));
    let is_so = (count == 1) & (chunk[0] == wanted) & !device.failed();
    hold(rt, is_so, "one byte, and no failure");
}

/// The device does not read, for this reason.
fn stops<'a>(rt: &impl Abort, device: &mut Device<Cut<&'a [u8]>>, kind: ErrorKind) {
    let mut chunk = [0u8; 4];
    let told = match device.read(&mut chunk) {
        Ok(_count) => false,
        Err(error) => error.kind() == kind,
    };
    hold(rt, told & device.failed(), "a failure");
}

/// Of three bytes two are read, and then the device ends this way.
fn reads_two(rt: &impl Abort, ending: Ending, kind: ErrorKind) {
    let mut device = Device::new(Cut::new(&b"abc"[..], 1, 2, ending));
    reads(rt, &mut device, b'a');
    reads(rt, &mut device, b'b');
    stops(rt, &mut device, kind);
}

#[test]
fn reads_byte_by_byte(rt: HostRuntime) {
    let interrupted = ErrorKind::Interrupted;
    reads_two(&rt, Ending::Fails(interrupted), interrupted);
    reads_two(&rt, Ending::TakesNothing, ErrorKind::Other);
}

#[test]
fn reads_to_the_end(rt: HostRuntime) {
    let mut device = Device::new(&b"a"[..]);
    let mut chunk = [0u8; 4];
    let first = count_of(device.read(&mut chunk));
    let second = count_of(device.read(&mut chunk));
    let is_so = (first == 1) & (second == 0) & !device.failed();
    hold(&rt, is_so, "one byte, and the end, which is no failure");
}

/// Of four bytes as many are written as the writer takes, at most two a call.
fn writes(rt: &impl Abort, alloc: Global, total: usize, ending: Ending) {
    let mut written = Vec::new(alloc);
    let mut device = Device::new(Cut::new(&mut written, 2, total, ending));
    let out = device.write_front(b"abcd");
    let is_told = device.failed() == (total < 4);
    drop(device);
    let is_front = b"abcd".starts_with(written.as_slice()) & (written.len() == out);
    hold(rt, is_told & is_front & (out == total.min(4)), "the front");
}

#[test]
fn writes_up_to_each_byte(rt: HostRuntime) {
    let interrupted = Ending::Fails(ErrorKind::Interrupted);
    for total in 0..6usize {
        writes(&rt, rt.alloc(), total, interrupted);
        writes(&rt, rt.alloc(), total, Ending::TakesNothing);
    }
}

/// The device takes nothing of these bytes, and has then failed or not.
fn takes_nothing<'a>(
    rt: &impl Abort,
    device: &mut Device<Cut<&'a mut Vec<u8>>>,
    bytes: &[u8],
    failed: bool,
) {
    let count = count_of(device.write(bytes));
    let is_so = (count == 0) & (device.failed() == failed);
    hold(rt, is_so, "nothing is taken");
}

#[test]
fn keeps_a_failure(rt: HostRuntime) {
    let mut written = Vec::new(rt.alloc());
    let mut device = Device::new(Cut::new(&mut written, 1, 0, Ending::TakesNothing));
    takes_nothing(&rt, &mut device, b"", false);
    takes_nothing(&rt, &mut device, b"a", true);
    takes_nothing(&rt, &mut device, b"", true);
}

/// Two calls that a device passes on are two calls, the first of which was interrupted; and it has failed.
fn two_calls(rt: &impl Abort, first: usize, second: usize, failed: bool, calls: usize) {
    let is_so = (first == usize::MAX) & (second == 1) & failed & (calls == 2);
    hold(rt, is_so, "two calls");
}

#[test]
fn passes_one_read_on(rt: HostRuntime) {
    let ending = Ending::FailsOnce(ErrorKind::Interrupted);
    let mut reader = Cut::new(&b"ab"[..], 1, 0, ending);
    let mut device = Device::new(&mut reader);
    let mut chunk = [0u8; 4];
    let first = count_of(device.read(&mut chunk));
    let second = count_of(device.read(&mut chunk));
    let failed = device.failed();
    drop(device);
    two_calls(&rt, first, second, failed, reader.calls());
}

#[test]
fn passes_one_write_on(rt: HostRuntime) {
    let ending = Ending::FailsOnce(ErrorKind::Interrupted);
    let mut written = Vec::new(rt.alloc());
    let mut writer = Cut::new(&mut written, 1, 0, ending);
    let mut device = Device::new(&mut writer);
    let first = count_of(device.write(b"ab"));
    let second = count_of(device.write(b"ab"));
    let failed = device.failed();
    drop(device);
    two_calls(&rt, first, second, failed, writer.calls());
}
