//! The calls of a document.
ghost use Rattle.std.specs.Prelude.{◌≡◌, map, IfOk, IfErr};
ghost use Rattle.serde_json.specs.View.{view};
ghost use Rattle.squawk_document.specs.Calls.{no_arguments, argument, call_in, call_named, calls_in, complete_in, err_recover_in, extend_to_in, message_in};
ghost use Rattle.squawk_document.specs.WrittenCalls.{AreCalls, AreNoCalls, IsCall, IsNoCall};
ghost use Rattle.squawk_document.specs.declared.document_error.DocumentError.TheVariants.{Shape};
ghost use Rattle.squawk_document.specs.Values.{Gives, GivesExactly, kind_number_in};

use crate::document_error::DocumentError;
use crate::kind_set::kind_set;
use crate::value;
use serde_json::Value;
use squawk_parser::{SyntaxKind, Text};
use squawk_script::Call;
use std::alloc::Global;

/// Reads calls: an array of them.
pub fn calls(alloc: Global, value: &Value) -> Result<Vec<Call>, DocumentError>
    ensures reads { Gives (λ v. v.items) result (calls_in (view value.now)) }
    ensures written { IfOk result (λ v. AreCalls v.items (view value.now)) }
    ensures unwritten { IfErr result (λ e. e ≡ Shape → AreNoCalls (view value.now)) }
{
    let items = value::items(value)?;
    let mut calls = Vec::with_capacity(alloc, items.len())?;
    for item in items {
        calls.push_reserved(call(alloc, item)?);
    }
    Ok(calls)
}

/// Reads a call: an array of its name and its arguments.
pub fn call(alloc: Global, value: &Value) -> Result<Call, DocumentError>
    ensures reads { Gives (λ c. c) result (call_in (view value.now)) }
    ensures written { IfOk result (λ c. IsCall c (view value.now)) }
    ensures unwritten { IfErr result (λ e. e ≡ Shape → IsNoCall (view value.now)) }
{
    let items = value::items(value)?;
    let name = value::string(value::item(items, 0)?)?;
    call_named(alloc, name, items)
}

/// Reads the call of this name. The items are the name and the arguments.
fn call_named(alloc: Global, name: &str, items: &[Value]) -> Result<Call, DocumentError>
    ensures { Gives (λ c. c) result (call_named name.now (map view items.now)) }
{
    match name {
        "start" => no_arguments(items, Call::Start),
        "complete" => complete(items),
        "abandon" => Ok(Call::Abandon {
            marker: value::u32_of(argument(items)?)?,
        }),
        "precede" => Ok(Call::Precede {
            node: value::u32_of(argument(items)?)?,
        }),
        "extend_to" => extend_to(items),
        "eat" => Ok(Call::Eat {
            kind: kind(argument(items)?)?,
        }),
        "bump_any" => no_arguments(items, Call::BumpAny),
        "bump_remap" => Ok(Call::BumpRemap {
            kind: kind(argument(items)?)?,
        }),
        "expect" => Ok(Call::Expect {
            kind: kind(argument(items)?)?,
        }),
        "error" => Ok(Call::Error {
            message: message(alloc, argument(items)?)?,
        }),
        "err_recover" => err_recover(alloc, items),
        "err_and_bump" => Ok(Call::ErrAndBump {
            message: message(alloc, argument(items)?)?,
        }),
        _ => Err(DocumentError::Shape),
    }
}

/// Reads a call without arguments.
fn no_arguments(items: &[Value], call: Call) -> Result<Call, DocumentError>
    ensures { GivesExactly (λ c. c) result (no_arguments (map view items.now) call) }
{
    value::with_len(items, 1)?;
    Ok(call)
}

fn complete(items: &[Value]) -> Result<Call, DocumentError>
    ensures { GivesExactly (λ c. c) result (complete_in (map view items.now)) }
{
    let items = value::with_len(items, 3)?;
    let marker = value::u32_of(value::item(items, 1)?)?;
    let kind = kind(value::item(items, 2)?)?;
    Ok(Call::Complete { marker, kind })
}

fn extend_to(items: &[Value]) -> Result<Call, DocumentError>
    ensures { GivesExactly (λ c. c) result (extend_to_in (map view items.now)) }
{
    let items = value::with_len(items, 3)?;
    let node = value::u32_of(value::item(items, 1)?)?;
    let marker = value::u32_of(value::item(items, 2)?)?;
    Ok(Call::ExtendTo { node, marker })
}

fn err_recover(alloc: Global, items: &[Value]) -> Result<Call, DocumentError>
    ensures { Gives (λ c. c) result (err_recover_in (map view items.now)) }
{
    let items = value::with_len(items, 3)?;
    let message = message(alloc, value::item(items, 1)?)?;
    let recovery = kind_set(value::item(items, 2)?, 0)?;
    Ok(Call::ErrRecover { message, recovery })
}

/// The only argument of a call.
fn argument(items: &[Value]) -> Result<&Value, DocumentError>
    ensures { GivesExactly (λ v. view v.now) result (argument (map view items.now)) }
{
    value::item(value::with_len(items, 2)?, 1)
}

fn kind(value: &Value) -> Result<SyntaxKind, DocumentError>
    ensures { GivesExactly (λ kind. kind) result (kind_number_in (view value.now)) }
{
    let number = value::number(value, 0, u64::from(u16::MAX))?;
    Ok(SyntaxKind::from(number as u16))
}

fn message(alloc: Global, value: &Value) -> Result<Text, DocumentError>
    ensures { Gives (λ text. text) result (message_in (view value.now)) }
{
    let text = value::string(value)?;
    Ok(Text::new(String::from_str(alloc, text)?))
}
