// The command `request`: the licence request for initialization data, or the rejection.
ghost use Rattle.std.specs.Prelude.{IfOk, IsSome};
ghost use Rattle.init_data.specs.InitData.{kids_of};
ghost use Rattle.text_words.specs.Hexadecimal.{hex_bytes};
ghost use Rattle.player_cli.specs.Command.{data_of};
ghost use Rattle.player_cli.specs.Told.{IsAnswer};

use clearkey_json::request_text;
use eme_types::{Bytes, InitKind};
use init_data::{InitFault, kids_of};
use std::alloc::{AllocError, Global};
use text_words::hex_bytes;

/// The request text and a line feed, or the line of the rejection.
fn answer_text(alloc: Global, kind: InitKind, bytes: &[u8]) -> Result<Bytes, AllocError>
    ensures { IfOk result (λ text. IsAnswer (kids_of kind bytes.now) text) }
{
    match kids_of(alloc, kind, bytes) {
        Ok(kids) => {
            let mut text = request_text(alloc, &kids)?;
            text.push(b'\n')?;
            Ok(text)
        }
        Err(InitFault::Invalid) => Bytes::from_slice(alloc, b"rejected TypeError\n"),
        Err(InitFault::NoKids) => Bytes::from_slice(alloc, b"rejected NotSupportedError\n"),
        Err(InitFault::OutOfMemory) => Err(AllocError),
    }
}

/// The answer to a request for initialization data of that type, given in hexadecimal digits.
pub fn answer(alloc: Global, kind: InitKind, hex: &str) -> Result<Bytes, AllocError>
    requires { IsSome (hex_bytes hex.now) }
    ensures { IfOk result (λ text. IsAnswer (kids_of kind (data_of hex.now)) text) }
{
    let Some(bytes) = hex_bytes(alloc, hex.as_bytes())? else {
        unreachable!();
    };
    answer_text(alloc, kind, bytes.as_slice())
}
