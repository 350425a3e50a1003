//! The requirements of a signature, by their types, as they are shown.

ghost use Rattle.std.specs.Prelude.{◌≡◌, ◌++◌, codes, OnOk};
ghost use Rattle.std.specs.Io.KnownBytes.{Appends};
ghost use Rattle.std.specs.Option.{option_map};
ghost use Rattle.mach_base.specs.Items.{read_as};
ghost use Rattle.mach_signature.specs.RequirementTypes.{requirement_view, requirements_view, type_number};
ghost use Rattle.mach_signature.specs.SignViews.{signature_view};
ghost use Rattle.machsign.specs.RequirementLines as defined;

use mach_base::Result;
use mach_cli::print_bytes;
use mach_signature::CodeSignature;
use mach_signature::requirements::{Quotes, Requirement, RequirementType, Requirements};
use std::io;
use std::io::Write;

/// Prints the lines of the requirements of a signature: the first of each type.
pub fn print_requirements<O: Write>(signature: &CodeSignature<'_>, out: &mut O) -> io::Result<()>
    ensures { OnOk result (Appends (O.contents out.old) (O.contents out.new) (defined.requirement_lines (signature_view signature.now))) }
{
    match signature.requirements() {
        Ok(Some(requirements)) => print_types(&requirements, out),
        Ok(None) => Ok(()),
        Err(_) => print_unreadable(out),
    }
}

// Prints that the requirements can't be read.
fn print_unreadable<O: Write>(out: &mut O) -> io::Result<()>
    ensures { OnOk result (Appends (O.contents out.old) (O.contents out.new) (codes "requirements: unreadable\n")) }
{
    writeln!(out, "requirements: unreadable")
}

// Prints the lines of the types.
fn print_types<O: Write>(requirements: &Requirements<'_>, out: &mut O) -> io::Result<()>
    ensures { OnOk result (Appends (O.contents out.old) (O.contents out.new) (defined.type_lines (requirements_view requirements.now))) }
{
    print_type(requirements, "host", RequirementType::Host, out)?;
    print_type(requirements, "guest", RequirementType::Guest, out)?;
    print_type(requirements, "designated", RequirementType::Designated, out)?;
    print_type(requirements, "library", RequirementType::Library, out)?;
    print_type(requirements, "plugin", RequirementType::Plugin, out)
}

// Prints the line of the first requirement of a type, if there is one.
fn print_type<O: Write>(
    requirements: &Requirements<'_>,
    name: &str,
    kind: RequirementType,
    out: &mut O,
) -> io::Result<()>
    ensures { OnOk result (Appends (O.contents out.old) (O.contents out.new)
        (defined.type_line (requirements_view requirements.now) name.now (type_number kind))) }
{
    print_found(name, requirements.get(kind), out)
}

// Prints the line of a requirement, if there is one.
fn print_found<O: Write>(
    name: &str,
    found: Result<Option<Requirement<'_>>>,
    out: &mut O,
) -> io::Result<()>
    ensures { OnOk result (Appends (O.contents out.old) (O.contents out.new)
        (defined.type_line_by name.now (read_as (option_map requirement_view) found.entry))) }
{
    match found {
        Ok(Some(requirement)) => print_line(name, requirement, out),
        Ok(None) => Ok(()),
        Err(_) => writeln!(out, "requirement {name}: unreadable"),
    }
}

// Prints the line of a requirement.
fn print_line<O: Write>(name: &str, requirement: Requirement<'_>, out: &mut O) -> io::Result<()>
    ensures { OnOk result (Appends (O.contents out.old) (O.contents out.new) (defined.found_line name.now requirement.entry.bytes.now)) }
{
    write!(out, "requirement {name}: ")?;
    writeln!(out, "{requirement}")
}

/// Writes an object of the requirements of a signature, null if it has none.
pub fn write_requirements<O: Write>(signature: &CodeSignature<'_>, out: &mut O) -> io::Result<()>
    ensures { OnOk result (Appends (O.contents out.old) (O.contents out.new) (defined.requirements_object (signature_view signature.now))) }
{
    match signature.requirements() {
        Ok(Some(requirements)) => write_types(&requirements, out),
        Ok(None) => write!(out, "null"),
        Err(_) => write!(out, "{{\"error\":\"unreadable\"}}"),
    }
}

// Writes the object of the types.
fn write_types<O: Write>(requirements: &Requirements<'_>, out: &mut O) -> io::Result<()>
    ensures { OnOk result (Appends (O.contents out.old) (O.contents out.new) (defined.type_members (requirements_view requirements.now) ++ codes "}")) }
{
    write_members(requirements, out)?;
    write!(out, "}}")
}

// Writes the members of the types.
fn write_members<O: Write>(requirements: &Requirements<'_>, out: &mut O) -> io::Result<()>
    ensures { OnOk result (Appends (O.contents out.old) (O.contents out.new) (defined.type_members (requirements_view requirements.now))) }
{
    write_type(
        requirements,
        "{\"designated\":",
        RequirementType::Designated,
        out,
    )?;
    write_type(requirements, ",\"guest\":", RequirementType::Guest, out)?;
    write_type(requirements, ",\"host\":", RequirementType::Host, out)?;
    write_type(requirements, ",\"library\":", RequirementType::Library, out)?;
    write_type(requirements, ",\"plugin\":", RequirementType::Plugin, out)
}

// Writes the member of the first requirement of a type, after some text.
fn write_type<O: Write>(
    requirements: &Requirements<'_>,
    before: &str,
    kind: RequirementType,
    out: &mut O,
) -> io::Result<()>
    ensures { OnOk result (Appends (O.contents out.old) (O.contents out.new)
        (defined.type_member (requirements_view requirements.now) before.now (type_number kind))) }
{
    write!(out, "{before}")?;
    write_found(requirements.get(kind), out)
}

// Writes the value of such a member.
fn write_found<O: Write>(found: Result<Option<Requirement<'_>>>, out: &mut O) -> io::Result<()>
    ensures { OnOk result (Appends (O.contents out.old) (O.contents out.new)
        (defined.type_object_by (read_as (option_map requirement_view) found.entry))) }
{
    match found {
        Ok(Some(requirement)) => write_requirement(requirement, out),
        Ok(None) => write!(out, "null"),
        Err(_) => write!(out, "{{\"error\":\"unreadable\"}}"),
    }
}

// Writes the object of a requirement.
fn write_requirement<O: Write>(requirement: Requirement<'_>, out: &mut O) -> io::Result<()>
    ensures { OnOk result (Appends (O.contents out.old) (O.contents out.new) (defined.requirement_object requirement.entry.bytes.now)) }
{
    if requirement.is_simple() {
        let text = requirement.text(Quotes::Escaped);
        return write!(out, "{{\"hex\":null,\"text\":\"{text}\"}}");
    }
    write!(out, "{{\"hex\":\"")?;
    print_bytes(requirement.bytes, out)?;
    write!(out, "\",\"text\":null}}")
}
