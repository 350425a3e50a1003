//! The verdicts on how an image is hardened, as lists: each with what it means, and with what turns it on.

ghost use Rattle.std.specs.Prelude.{◌≡◌, map};
ghost use Rattle.mach_audit.specs.Security.{findings_left};
ghost use Rattle.mach_cli.specs.Fields.{field_view};
ghost use Rattle.machinfo.specs.RowFields.{fields_read};
ghost use Rattle.machinfo.specs.Verdicts.{explained_fields, finding_fields, fields_of_finding, turned_on_by};

use crate::lists::column_if;
use goblin_mach::Result;
use mach_audit::{Finding, Findings, Verdict};
use mach_cli::{Field, FieldsForm, ItemList, Value};
use std::alloc::Allocator;
use std::io;
use std::io::Write;

/// How an image is hardened.
#[derive(Drop)]
pub struct HardeningFindings<'a, 'b, A: Allocator>(pub Findings<'a, 'b, A>);

impl<'a, 'b, A: Allocator> ItemList for HardeningFindings<'a, 'b, A> {
    type Item = Finding;

    ghost fields = { finding_fields };

    ghost items_left = { λ s. fields_read finding_fields (findings_left s.0) };

    #[tactic(auto, using(crate::proofs::ListRows::next_fields))]
    fn next_item(&mut self) -> Option<Result<Finding>> {
        self.0.take_next()
    }

    fn write_item<F: FieldsForm, O: Write>(finding: &Finding, out: &mut O) -> io::Result<()> {
        F::write(&fields_of_finding(false, *finding), out)
    }
}

/// The same, and what turns each on.
#[derive(Drop)]
pub struct ExplainedFindings<'a, 'b, A: Allocator>(pub Findings<'a, 'b, A>);

impl<'a, 'b, A: Allocator> ItemList for ExplainedFindings<'a, 'b, A> {
    type Item = Finding;

    ghost fields = { explained_fields };

    ghost items_left = { λ s. fields_read explained_fields (findings_left s.0) };

    #[tactic(auto, using(crate::proofs::ListRows::next_fields))]
    fn next_item(&mut self) -> Option<Result<Finding>> {
        self.0.take_next()
    }

    fn write_item<F: FieldsForm, O: Write>(finding: &Finding, out: &mut O) -> io::Result<()> {
        F::write(&fields_of_finding(true, *finding), out)
    }
}

// Returns the fields of a finding: the name of the verdict, whether it holds, what `yes` means, and what turns it on; a line has that
// only if it is explained.
fn fields_of_finding(is_explained: bool, finding: Finding) -> [Field<'static>; 5]
    ensures { map field_view result ≡ fields_of_finding is_explained finding }
{
    let (name, meaning) = finding.verdict.words();
    let is_so = Value::Flag {
        is_so: finding.is_so,
        yes: "yes",
        no: "no ",
    };
    let source = Value::Text(turned_on_by(finding.verdict));
    [
        Field::new("is_so", is_so, 2),
        Field::new("meaning", Value::Text(meaning), 3),
        Field::new("name", Value::Text(name), 1).wide(22),
        Field::new("turned_on_by", source, column_if(is_explained, 5)),
        Field::of_line(Value::Text("- turned on by"), column_if(is_explained, 4)),
    ]
}

// Returns what turns a verdict on: an option of the linker, the compiler or the tool that signs.
fn turned_on_by(verdict: Verdict) -> &'static str
    ensures { result.now ≡ turned_on_by verdict }
{
    match verdict {
        Verdict::NoHeapExecution => "ld for i386, unless -allow_heap_execute is given",
        Verdict::Pie => "ld -pie",
        Verdict::StackExecution => "ld -allow_stack_execute",
        Verdict::PointerAuthentication => "clang -arch arm64e",
        Verdict::StackCanary => "clang -fstack-protector-strong",
        Verdict::WritableCode => "ld -segprot SEGMENT rwx rwx",
        Verdict::WritableCodeAllowed => "ld -segprot SEGMENT rwx rx",
        Verdict::Restricted => "ld -sectcreate __RESTRICT __restrict /dev/null",
        Verdict::ChainedFixups => "ld -fixup_chains",
        Verdict::RelativeRunPaths => "ld -rpath PATH",
        Verdict::Encrypted => "the App Store",
        Verdict::Stripped => "strip",
        Verdict::Signed => "codesign -s IDENTITY",
        Verdict::AdHoc => "codesign -s -, or ld -adhoc_codesign",
        Verdict::Cms => "codesign -s IDENTITY",
        Verdict::HardenedRuntime => "codesign -o runtime",
        Verdict::LibraryValidation => "codesign -o library",
        Verdict::Entitlements => "codesign --entitlements FILE",
        Verdict::GetTaskAllow => "that entitlement, as Xcode gives it to debug builds",
    }
}
