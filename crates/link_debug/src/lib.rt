//! The places of a link that debug sections tell of, as definitions: bodies of functions in the code
//! section, addresses, slots, numbers of globals. What is joined by them is the end of a link that
//! keeps its debug sections. The law here says what an offset into a function names.
#![tactic(auto)]

ghost use Rattle.link_debug.specs.Offsets.{OffsetsName, DroppedHaveNone, LiveHavePlaces};

/// Where a function of an object has a place in the code, its body stands there with numbers for its
/// references, each instruction as far from the body's first byte as in the object. So an offset into
/// the function names the same instruction in the output. A function has a place exactly where it is live.
pub fn offsets_name_instructions()
    ensures named { OffsetsName }
    ensures dropped { DroppedHaveNone }
    ensures placed { LiveHavePlaces }
{
    output_module::filled_bodies_are_read();
}
