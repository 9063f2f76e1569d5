//! What the debug sections of a link are: definitions alone, with worked sections.
//!
//! A debug section is a custom section of an object whose name begins with `.debug_`. The link
//! puts those of one name behind one another, in the order of the objects, and writes the words
//! that `reloc.` sections name anew: places of functions in the code, places in joined sections,
//! addresses, slots and numbers of globals.
#![tactic(auto)]
