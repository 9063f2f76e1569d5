//! An object of the generated case, section by section.
ghost use Rattle.std.specs.Prelude.{◌≡◌, ◌<◌, IfOk};
ghost use Rattle.case_objects.specs.Parts.{section as section_of};
ghost use Rattle.case_objects.specs.Objects.{object_of, first, head as head_of, functions as functions_of, imports as imports_of, f_body as f_body_of, w_body as w_body_of, code as code_of, data_section as data_of, symbols as symbols_of, infos as infos_of, groups as groups_of, linking as linking_of, relocs as relocs_of};

use crate::parts::{custom, join, numbered, section, sized};
use leb_codec::put_s32_5;
use std::alloc::Global;
use wl_base::{OutOfMemory, Seq};

/// `call`, with a window that holds 0.
const CALL: &[u8] = &[0x10, 0x80, 0x80, 0x80, 0x80, 0];

/// The datum is loaded and added to what stands on the stack.
const ENDING: &[u8] = &[0x41, 0x80, 0x80, 0x80, 0x80, 0, 0x28, 2, 0, 0x6A, 0x0B];

/// An object of a case.
#[derive(Clone, Copy)]
pub struct CaseObject {
    /// Its place in the case, from 0.
    pub number: u32,
    /// Whether another object follows.
    pub more: bool,
}

impl CaseObject {
    /// The whole object.
    #[tactic(auto, unfolding(crate::specs::Objects::object_of))]
    pub fn bytes(self, alloc: Global) -> Result<Seq<u8>, OutOfMemory>
        requires { self.number < 20000 }
        ensures { IfOk result (λ bytes. bytes ≡ object_of self.more self.number) }
    {
        let imports = self.imports(alloc)?;
        let code = self.code(alloc)?;
        let data = self.data(alloc)?;
        let linking = self.linking(alloc)?;
        let relocs = self.relocs(alloc)?;
        join(
            alloc,
            &[
                head(),
                imports.as_slice(),
                functions(),
                code.as_slice(),
                data.as_slice(),
                linking.as_slice(),
                relocs.as_slice(),
            ],
        )
    }

    /// The index of the object's first own function: behind the one that it imports.
    fn first(self) -> u8
        ensures { result ≡ first self.more }
    {
        u8::from(self.more)
    }

    /// The import section: the memory, and the next object's function.
    fn imports(self, alloc: Global) -> Result<Seq<u8>, OutOfMemory>
        requires { self.number < 20000 }
        ensures { IfOk result (λ bytes. bytes ≡ imports_of self.more self.number) }
    {
        let module = sized(alloc, b"env")?;
        let memory = sized(alloc, b"__linear_memory")?;
        if !self.more {
            return section(
                alloc,
                2,
                &[&[1], module.as_slice(), memory.as_slice(), &[2, 0, 1]],
            );
        }
        let next = numbered(alloc, b'f', self.number + 1)?;
        section(
            alloc,
            2,
            &[
                &[2],
                module.as_slice(),
                memory.as_slice(),
                &[2, 0, 1],
                module.as_slice(),
                next.as_slice(),
                &[0, 0],
            ],
        )
    }

    /// The body of the function that is named after the object.
    fn f_body(self, alloc: Global) -> Result<Seq<u8>, OutOfMemory>
        ensures { IfOk result (λ bytes. bytes ≡ f_body_of self.more) }
    {
        if self.more {
            join(alloc, &[&[0], CALL, CALL, &[0x6A], ENDING])
        } else {
            join(alloc, &[&[0], CALL, ENDING])
        }
    }

    /// The body of `w`.
    fn w_body(self, alloc: Global) -> Result<Seq<u8>, OutOfMemory>
        requires { self.number < 20000 }
        ensures { IfOk result (λ bytes. bytes ≡ w_body_of self.number) }
    {
        let number = put_s32_5(self.number as i32);
        join(alloc, &[&[0, 0x41], &number, &[0x0B]])
    }

    /// The code section: the two bodies.
    fn code(self, alloc: Global) -> Result<Seq<u8>, OutOfMemory>
        requires { self.number < 20000 }
        ensures { IfOk result (λ bytes. bytes ≡ code_of self.more self.number) }
    {
        let f = self.f_body(alloc)?;
        let w = self.w_body(alloc)?;
        let f = sized(alloc, f.as_slice())?;
        let w = sized(alloc, w.as_slice())?;
        section(alloc, 10, &[&[2], f.as_slice(), w.as_slice()])
    }

    /// The data section: one segment, of the object's number and 1.
    fn data(self, alloc: Global) -> Result<Seq<u8>, OutOfMemory>
        requires { self.number < 20000 }
        ensures { IfOk result (λ bytes. bytes ≡ data_of self.number) }
    {
        let value = sized(alloc, &(self.number + 1).to_le_bytes())?;
        section(alloc, 11, &[&[1, 0, 0x41, 0, 0x0B], value.as_slice()])
    }

    /// The linking section: its version, the symbols, the segment's name, and the group.
    fn linking(self, alloc: Global) -> Result<Seq<u8>, OutOfMemory>
        ensures { IfOk result (λ bytes. bytes ≡ linking_of self.more self.number) }
    {
        let symbols = self.symbols(alloc)?;
        let infos = infos(alloc)?;
        let groups = self.groups(alloc)?;
        let contents = join(
            alloc,
            &[
                &[2],
                symbols.as_slice(),
                infos.as_slice(),
                groups.as_slice(),
            ],
        )?;
        custom(alloc, b"linking", contents.as_slice())
    }

    /// The symbol table.
    #[tactic(auto, unfolding(crate::specs::Objects::symbols))]
    fn symbols(self, alloc: Global) -> Result<Seq<u8>, OutOfMemory>
        ensures { IfOk result (λ bytes. bytes ≡ section_of 8 (symbols_of self.more self.number)) }
    {
        let f = numbered(alloc, b'f', self.number)?;
        let w = sized(alloc, b"w")?;
        let d = numbered(alloc, b'd', self.number)?;
        if self.more {
            section(
                alloc,
                8,
                &[
                    &[4, 0, 0, 1],
                    f.as_slice(),
                    &[0, 1, 2],
                    w.as_slice(),
                    &[1, 0],
                    d.as_slice(),
                    &[0, 0, 4, 0, 0x10, 0],
                ],
            )
        } else {
            section(
                alloc,
                8,
                &[
                    &[3, 0, 0, 0],
                    f.as_slice(),
                    &[0, 1, 1],
                    w.as_slice(),
                    &[1, 0],
                    d.as_slice(),
                    &[0, 0, 4],
                ],
            )
        }
    }

    /// The COMDAT groups: one, of the function `w`.
    fn groups(self, alloc: Global) -> Result<Seq<u8>, OutOfMemory>
        ensures { IfOk result (λ bytes. bytes ≡ section_of 7 (groups_of self.more)) }
    {
        let w = sized(alloc, b"w")?;
        section(
            alloc,
            7,
            &[&[1], w.as_slice(), &[0, 1, 1, self.first() + 1]],
        )
    }

    /// The relocations of the code section.
    fn relocs(self, alloc: Global) -> Result<Seq<u8>, OutOfMemory>
        ensures { IfOk result (λ bytes. bytes ≡ relocs_of self.more) }
    {
        if self.more {
            custom(
                alloc,
                b"reloc.CODE",
                &[3, 3, 0, 4, 3, 0, 10, 1, 4, 17, 2, 0],
            )
        } else {
            custom(alloc, b"reloc.CODE", &[3, 2, 0, 4, 1, 4, 10, 2, 0])
        }
    }
}

/// The magic and the version, and the type section: type 0 is () to i32.
#[tactic(auto, unfolding(leb_codec::specs::Shortest::u32))]
fn head() -> &'static [u8]
    ensures { result.now ≡ head_of }
{
    b"\0asm\x01\0\0\0\x01\x05\x01\x60\0\x01\x7F"
}

/// The function section: two functions of type 0.
#[tactic(auto, unfolding(leb_codec::specs::Shortest::u32))]
fn functions() -> &'static [u8]
    ensures { result.now ≡ functions_of }
{
    &[3, 3, 2, 0, 0]
}

/// The segments' names: one, with alignment 2.
fn infos(alloc: Global) -> Result<Seq<u8>, OutOfMemory>
    ensures { IfOk result (λ bytes. bytes ≡ section_of 5 infos_of) }
{
    let name = sized(alloc, b".data")?;
    section(alloc, 5, &[&[1], name.as_slice(), &[2, 0]])
}
