//! The fields that strict and lossy mode read from the commands in different ways.

ghost use Rattle.std.specs.Prelude.{◌≡◌, ◌++◌, ◌∷◌, [], ℕ, List, map, IfOk, IfErr, OnOk};
ghost use Rattle.mach_base.specs.Answer.{ErrorMeets, IsOkUnlessMemory};
ghost use Rattle.mach_base.specs.KeptText.{kept_bytes};
ghost use Rattle.mach_load.specs.Command.{Command};
ghost use Rattle.mach_parts.specs.Segment.{SegmentView};
ghost use Rattle.mach_load.specs.Variants.{command_of};
ghost use Rattle.goblin_mach.specs.Image.{AllReadable, IsUnreadable};
ghost use Rattle.goblin_mach.specs.Subjects.{segment_by, lossy_segment_by, libs_in};
ghost use Rattle.goblin_mach.specs.Readings.{Reading, read_of};

use crate::readings::{add, add_readable, add_readable_text, add_text};
use crate::single_value::Once;
use crate::subjects::{Libraries, LossySegmentData, RunPaths, SegmentData};
use mach_base::{Ctx, KeptText, Result};
use mach_load::LoadCommand;
use mach_parts::segment::Segment;
use std::alloc::Allocator;

/// The fields that strict and lossy mode read from the commands in different ways.
#[derive(Drop)]
pub struct Fields<'a, A: Allocator> {
    pub segments: Vec<Segment<'a>, A>,
    pub libs: Vec<&'a str, A>,
    pub rpaths: Vec<&'a str, A>,
    pub once: Once<'a>,
}

impl<'a, A: Allocator + Clone> Fields<'a, A> {
    ghost use Rattle.goblin_mach.specs.OpenImage.{AreFields, AreTaken};

    /// Reads all fields. Fails if one can't be read.
    pub fn read(
        alloc: A,
        bytes: &'a [u8],
        ctx: Ctx,
        commands: &[LoadCommand],
    ) -> Result<Fields<'a, A>>
        ensures found { IfOk result (λ f. let cs = map command_of commands.now in
            AreFields ctx bytes.now (read_of (segment_by ctx bytes.now) cs) (libs_in bytes.now cs) cs f) }
        ensures all { IfOk result (λ _. AllReadable ctx bytes.now (map command_of commands.now)) }
        ensures refused { IfErr result (ErrorMeets (IsUnreadable ctx bytes.now (map command_of commands.now))) }
    {
        let mut fields = Fields::empty(alloc)?;
        let mut names = KeptText::new(bytes);
        for command in commands {
            fields.take(bytes, &mut names, ctx, command)?;
        }
        fields.put_name()?;
        Ok(fields)
    }

    /// Reads the fields that can be read. Data that aren't in the bytes are empty.
    pub fn read_lossy(
        alloc: A,
        bytes: &'a [u8],
        ctx: Ctx,
        commands: &[LoadCommand],
    ) -> Result<Fields<'a, A>>
        ensures found { IfOk result (λ f. let cs = map command_of commands.now in
            AreFields ctx bytes.now (read_of (lossy_segment_by ctx bytes.now) cs) (libs_in bytes.now cs) cs f) }
        ensures only { IsOkUnlessMemory result }
    {
        let mut fields = Fields::empty(alloc)?;
        let mut names = KeptText::new(bytes);
        for command in commands {
            fields.take_readable(bytes, &mut names, ctx, command)?;
        }
        fields.put_name()?;
        Ok(fields)
    }

    // Returns the fields of no commands.
    fn empty(alloc: A) -> Result<Fields<'a, A>>
        ensures found { (ctx : Ctx) (bytes : List ℕ) (segment : Reading SegmentView) → IfOk result (AreTaken ctx bytes segment []) }
        ensures only { IsOkUnlessMemory result }
    {
        Ok(Fields {
            segments: Vec::new(alloc.clone()?),
            libs: Vec::new(alloc.clone()?),
            rpaths: Vec::new(alloc),
            once: Once {
                symbols: None,
                name: None,
                export_trie: None,
                bind_interpreter: None,
            },
        })
    }
}

impl<'a, A: Allocator> Fields<'a, A> {
    ghost use Rattle.goblin_mach.specs.OpenImage.{AreFields, AreTaken};

    // Adds what one more command says.
    #[inline(always)]
    fn take(
        &mut self,
        bytes: &'a [u8],
        names: &mut KeptText<'a>,
        ctx: Ctx,
        command: &LoadCommand,
    ) -> Result<()>
        requires { kept_bytes names.old ≡ bytes.now }
        ensures found { (cs : List Command) → AreTaken ctx bytes.now (segment_by ctx bytes.now) cs self.old
            → OnOk result (AreTaken ctx bytes.now (segment_by ctx bytes.now) (cs ++ command_of command.now ∷ []) self.new) }
        ensures all { OnOk result (AllReadable ctx bytes.now (command_of command.now ∷ [])) }
        ensures refused { IfErr result (ErrorMeets (IsUnreadable ctx bytes.now (command_of command.now ∷ []))) }
        ensures bytes { kept_bytes names.new ≡ bytes.now }
    {
        add(&mut self.segments, &SegmentData { bytes, ctx }, command)?;
        add_text(&mut self.libs, &Libraries { bytes }, names, command)?;
        add_text(&mut self.rpaths, &RunPaths { bytes }, names, command)?;
        self.once.take(bytes, names, ctx, command)
    }

    // Adds what can be read of one more command.
    fn take_readable(
        &mut self,
        bytes: &'a [u8],
        names: &mut KeptText<'a>,
        ctx: Ctx,
        command: &LoadCommand,
    ) -> Result<()>
        requires { kept_bytes names.old ≡ bytes.now }
        ensures found { (cs : List Command) → AreTaken ctx bytes.now (lossy_segment_by ctx bytes.now) cs self.old
            → OnOk result (AreTaken ctx bytes.now (lossy_segment_by ctx bytes.now) (cs ++ command_of command.now ∷ []) self.new) }
        ensures only { IsOkUnlessMemory result }
        ensures bytes { kept_bytes names.new ≡ bytes.now }
    {
        add_readable(
            &mut self.segments,
            &LossySegmentData { bytes, ctx },
            command,
        )?;
        add_readable_text(&mut self.libs, &Libraries { bytes }, names, command)?;
        add_readable_text(&mut self.rpaths, &RunPaths { bytes }, names, command)?;
        self.once.take_readable(bytes, names, ctx, command);
        Ok(())
    }

    // Inserts the image's own name before its libraries.
    fn put_name(&mut self) -> Result<()>
        ensures found { (ctx : Ctx) (bytes : List ℕ) (segment : Reading SegmentView) (cs : List Command) → AreTaken ctx bytes segment cs self.old
            → OnOk result (AreFields ctx bytes (read_of segment cs) (libs_in bytes cs) cs self.new) }
        ensures only { IsOkUnlessMemory result }
    {
        let name = self.once.name.unwrap_or("self");
        self.libs.insert(0, name)?;
        Ok(())
    }
}
