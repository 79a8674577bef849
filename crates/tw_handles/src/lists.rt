//! Calls that give all members of a container at once, in lists, as one input.

ghost use Rattle.std.specs.List.{range_with_len, zip};
ghost use Rattle.std.specs.Prelude.{◌≡◌, ◌<◌, ◌≤◌, ◌++◌, ◌∷◌, [], IfOk, MatchResult, length, map, pos};
ghost use Rattle.tw_handles.specs.Asking.{Fails};
ghost use Rattle.tw_handles.specs.Codes.{no_memory};
ghost use Rattle.tw_handles.specs.Lists.{AreNamedInts, AreNamedTexts, AreNumberedTexts, AreSubscripts, AreTexts, IsListAdded, IsTextAt, IsWhy, begin_of, ints_by_text_of, ints_of, subscripts_of, text_in, texts_by, texts_by_text_of, texts_of};
ghost use Rattle.tw_handles.specs.Running.{IsAdded};

use crate::codes;
use crate::given::{add, text_of};
use crate::handle::Handle;
use std::alloc::{AllocError, Global};
use tw_types::{Input, InputText, Items};

/// Returns the place at which a text begins: where the one before ends.
fn begin_at(ends: &[u64], index: usize) -> u64
    requires { index ≤ length ends.now }
    ensures { result ≡ begin_of ends.now index }
{
    if index == 0 { 0 } else { ends[index - 1] }
}

/// Copies a text of a buffer.
fn text_at(alloc: Global, bytes: &[u8], ends: &[u64], index: usize) -> Result<InputText, u8>
    requires { index < length ends.now }
    ensures { MatchResult result (λ text. IsTextAt bytes.now ends.now index × (text ≡ text_in bytes.now ends.now index)) (IsWhy (IsTextAt bytes.now ends.now index)) }
{
    let (begin, end) = (begin_at(ends, index), ends[index]);
    if begin > end || end > bytes.len() as u64 {
        return Err(codes::NO_LIST);
    }
    text_of(alloc, &bytes[begin as usize..end as usize])
}

/// Adds a text at the end of a list.
fn push_text(texts: &mut Vec<InputText>, text: InputText) -> Result<(), u8>
    ensures { MatchResult result (λ done. texts.new.items ≡ texts.old.items ++ text ∷ []) (λ code. code ≡ no_memory) }
{
    match texts.push(text) {
        Ok(()) => Ok(()),
        Err(_) => Err(codes::NO_MEMORY),
    }
}

/// Copies all texts of a buffer.
fn read_texts(alloc: Global, bytes: &[u8], ends: &[u64]) -> Result<Vec<InputText>, u8>
    ensures { MatchResult result (λ texts. AreTexts bytes.now ends.now × (texts.items ≡ texts_of bytes.now ends.now)) (IsWhy (AreTexts bytes.now ends.now)) }
{
    if begin_at(ends, ends.len()) != bytes.len() as u64 {
        return Err(codes::NO_LIST);
    }
    let mut texts = Vec::new(alloc);
    for index in 0..ends.len() {
        match text_at(alloc, bytes, ends, index) {
            Ok(text) => push_text(&mut texts, text)?,
            Err(code) => return Err(code),
        }
    }
    Ok(texts)
}

/// Copies integers.
fn read_ints(alloc: Global, values: &[i64]) -> Result<Vec<i64>, u8>
    ensures { MatchResult result (λ copies. copies.items ≡ values.now) (λ code. code ≡ no_memory) }
{
    match Vec::from_slice(alloc, values) {
        Ok(copies) => Ok(copies),
        Err(_) => Err(codes::NO_MEMORY),
    }
}

/// Returns 0, 1, 2 and so on.
fn counted(alloc: Global, count: usize) -> Result<Vec<i64>, AllocError>
    requires { count < 9223372036854775808 }
    ensures { IfOk result (λ numbers. numbers.items ≡ map pos (range_with_len 0 count)) }
{
    let mut numbers = Vec::new(alloc);
    for index in 0..count {
        numbers.push(index as i64)?;
    }
    Ok(numbers)
}

/// Copies as many subscripts as there are values, or makes those that an empty list means.
fn read_subscripts(alloc: Global, given: &[i64], count: usize) -> Result<Vec<i64>, u8>
    requires { count < 9223372036854775808 }
    ensures { MatchResult result (λ subscripts. AreSubscripts given.now count × (subscripts.items ≡ subscripts_of given.now count)) (IsWhy (AreSubscripts given.now count)) }
{
    if given.is_empty() {
        match counted(alloc, count) {
            Ok(subscripts) => Ok(subscripts),
            Err(_) => Err(codes::NO_MEMORY),
        }
    } else if given.len() == count {
        Ok(read_ints(alloc, given)?)
    } else {
        Err(codes::NO_LIST)
    }
}

/// Puts subscripts and values together.
fn pair<A: Drop, B: Drop>(
    alloc: Global,
    subscripts: Vec<A>,
    values: Vec<B>,
) -> Result<Vec<(A, B)>, u8>
    ensures { MatchResult result (λ members. members.items ≡ zip subscripts.items values.items) (λ code. code ≡ no_memory) }
{
    match subscripts.into_iter().zip(values).collect(alloc) {
        Ok(members) => Ok(members),
        Err(_) => Err(codes::NO_MEMORY),
    }
}

/// Makes a container of integers by integers.
fn ints(alloc: Global, subscripts: &[i64], values: &[i64]) -> Result<Input, u8>
    ensures { MatchResult result (λ made. AreSubscripts subscripts.now (length values.now) × (made ≡ ints_of subscripts.now values.now)) (IsWhy (AreSubscripts subscripts.now (length values.now))) }
{
    let subscripts = read_subscripts(alloc, subscripts, values.len())?;
    let values = read_ints(alloc, values)?;
    Ok(Input::Ints(Items::from(pair(alloc, subscripts, values)?)))
}

/// Makes a container of texts by integers.
fn texts(alloc: Global, subscripts: &[i64], bytes: &[u8], ends: &[u64]) -> Result<Input, u8>
    ensures { MatchResult result (λ made. AreNumberedTexts subscripts.now bytes.now ends.now × (made ≡ texts_by subscripts.now bytes.now ends.now)) (IsWhy (AreNumberedTexts subscripts.now bytes.now ends.now)) }
{
    let subscripts = read_subscripts(alloc, subscripts, ends.len())?;
    let texts = read_texts(alloc, bytes, ends)?;
    Ok(Input::Texts(Items::from(pair(alloc, subscripts, texts)?)))
}

/// Makes a container of integers by texts.
fn ints_by_text(alloc: Global, subscripts: &[u8], ends: &[u64], values: &[i64]) -> Result<Input, u8>
    ensures { MatchResult result (λ made. AreNamedInts subscripts.now ends.now values.now × (made ≡ ints_by_text_of subscripts.now ends.now values.now)) (IsWhy (AreNamedInts subscripts.now ends.now values.now)) }
{
    if ends.len() != values.len() {
        return Err(codes::NO_LIST);
    }
    let subscripts = read_texts(alloc, subscripts, ends)?;
    let values = read_ints(alloc, values)?;
    Ok(Input::IntsByText(Items::from(pair(alloc, subscripts, values)?)))
}

/// Makes a container of texts by texts.
fn texts_by_text(
    alloc: Global,
    subscripts: &[u8],
    subscript_ends: &[u64],
    bytes: &[u8],
    ends: &[u64],
) -> Result<Input, u8>
    ensures { MatchResult result (λ made. AreNamedTexts subscripts.now subscript_ends.now bytes.now ends.now × (made ≡ texts_by_text_of subscripts.now subscript_ends.now bytes.now ends.now)) (IsWhy (AreNamedTexts subscripts.now subscript_ends.now bytes.now ends.now)) }
{
    if subscript_ends.len() != ends.len() {
        return Err(codes::NO_LIST);
    }
    let subscripts = read_texts(alloc, subscripts, subscript_ends)?;
    let texts = read_texts(alloc, bytes, ends)?;
    Ok(Input::TextsByText(Items::from(pair(alloc, subscripts, texts)?)))
}

/// Appends an input that was made.
fn add_made(alloc: Global, inputs: &mut Handle, made: Result<Input, u8>) -> u8
    ensures { MatchResult made (λ input. IsAdded input inputs.old.held inputs.new.held result) (λ why. Fails why inputs.old.held inputs.new.held result) }
{
    match made {
        Ok(input) => add(alloc, inputs, input),
        Err(code) => code,
    }
}

/// Appends a container of integers by integers to the inputs of a handle. Without subscripts they are 0, 1, 2 and so on. Returns `NO_LIST` if there are
/// more or fewer than values.
pub fn input_ints(alloc: Global, inputs: &mut Handle, subscripts: &[i64], values: &[i64]) -> u8
    ensures { IsListAdded (AreSubscripts subscripts.now (length values.now)) (ints_of subscripts.now values.now) inputs.old.held inputs.new.held result }
{
    add_made(alloc, inputs, ints(alloc, subscripts, values))
}

/// Like `input_ints`, for texts. They are in one buffer, one after the other, and `ends` has the place at which each ends. Returns `NO_LIST` if a place is
/// before the last one or after the buffer's end, or the last isn't its end, and `NO_UTF8` if a text isn't UTF-8.
pub fn input_texts(
    alloc: Global,
    inputs: &mut Handle,
    subscripts: &[i64],
    bytes: &[u8],
    ends: &[u64],
) -> u8
    ensures { IsListAdded (AreNumberedTexts subscripts.now bytes.now ends.now) (texts_by subscripts.now bytes.now ends.now) inputs.old.held inputs.new.held result }
{
    add_made(alloc, inputs, texts(alloc, subscripts, bytes, ends))
}

/// Like `input_ints`, with subscripts that are texts in a buffer, as values of `input_texts`.
pub fn input_ints_by_text(
    alloc: Global,
    inputs: &mut Handle,
    subscripts: &[u8],
    ends: &[u64],
    values: &[i64],
) -> u8
    ensures { IsListAdded (AreNamedInts subscripts.now ends.now values.now) (ints_by_text_of subscripts.now ends.now values.now) inputs.old.held inputs.new.held result }
{
    add_made(alloc, inputs, ints_by_text(alloc, subscripts, ends, values))
}

/// Like `input_texts`, with such subscripts.
pub fn input_texts_by_text(
    alloc: Global,
    inputs: &mut Handle,
    subscripts: &[u8],
    subscript_ends: &[u64],
    bytes: &[u8],
    ends: &[u64],
) -> u8
    ensures { IsListAdded (AreNamedTexts subscripts.now subscript_ends.now bytes.now ends.now) (texts_by_text_of subscripts.now subscript_ends.now bytes.now ends.now) inputs.old.held inputs.new.held result }
{
    let made = texts_by_text(alloc, subscripts, subscript_ends, bytes, ends);
    add_made(alloc, inputs, made)
}
