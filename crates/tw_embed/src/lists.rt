//! Exports the calls of `tw_handles` that give all members of an input at once.

ghost use Rattle.std.specs.Prelude.{length};
ghost use Rattle.tw_handles.specs.Lists.{AreNamedInts, AreNamedTexts, AreNumberedTexts, AreSubscripts, IsListAdded, ints_by_text_of, ints_of, texts_by, texts_by_text_of};

use std::alloc::Global;
use tw_handles::Handle;

/// Exports `tw_handles::input_ints`.
#[unsafe(no_mangle)]
pub extern "C" fn yuglemit_raw_input_ints(
    alloc: Global,
    inputs: &mut Handle,
    subscripts: &[i64],
    values: &[i64],
) -> u8
    ensures { IsListAdded (AreSubscripts subscripts.now (length values.now)) (ints_of subscripts.now values.now) inputs.old.held inputs.new.held result }
{
    tw_handles::input_ints(alloc, inputs, subscripts, values)
}

/// Exports `tw_handles::input_texts`.
#[unsafe(no_mangle)]
pub extern "C" fn yuglemit_raw_input_texts(
    alloc: Global,
    inputs: &mut Handle,
    subscripts: &[i64],
    texts: &[u8],
    ends: &[u64],
) -> u8
    ensures { IsListAdded (AreNumberedTexts subscripts.now texts.now ends.now) (texts_by subscripts.now texts.now ends.now) inputs.old.held inputs.new.held result }
{
    tw_handles::input_texts(alloc, inputs, subscripts, texts, ends)
}

/// Exports `tw_handles::input_ints_by_text`.
#[unsafe(no_mangle)]
pub extern "C" fn yuglemit_raw_input_ints_by_text(
    alloc: Global,
    inputs: &mut Handle,
    subscripts: &[u8],
    ends: &[u64],
    values: &[i64],
) -> u8
    ensures { IsListAdded (AreNamedInts subscripts.now ends.now values.now) (ints_by_text_of subscripts.now ends.now values.now) inputs.old.held inputs.new.held result }
{
    tw_handles::input_ints_by_text(alloc, inputs, subscripts, ends, values)
}

/// Exports `tw_handles::input_texts_by_text`.
#[unsafe(no_mangle)]
pub extern "C" fn yuglemit_raw_input_texts_by_text(
    alloc: Global,
    inputs: &mut Handle,
    subscripts: &[u8],
    subscript_ends: &[u64],
    texts: &[u8],
    ends: &[u64],
) -> u8
    ensures { IsListAdded (AreNamedTexts subscripts.now subscript_ends.now texts.now ends.now) (texts_by_text_of subscripts.now subscript_ends.now texts.now ends.now) inputs.old.held inputs.new.held result }
{
    tw_handles::input_texts_by_text(alloc, inputs, subscripts, subscript_ends, texts, ends)
}
