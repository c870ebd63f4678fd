//! Bytes are written whole.
ghost use Rattle.std.specs.Prelude.{OnOk, OnErr};
ghost use Rattle.fort_port_output.specs.Written.{Takes, Fails};

use fort_port::{Failed, Sink};

/// Writes all the bytes, or the first of them up to a fault.
///
/// # Errors
///
/// `Failed` where the output failed.
pub fn write_all<K: Sink>(sink: &mut K, bytes: &[u8]) -> Result<(), Failed>
    requires { K.can_write sink.old }
    ensures ok { OnOk result
        (Takes (record {
          was = K.written sink.old;
          is = K.written sink.new;
          faults_were = K.faults sink.old;
          faults_are = K.faults sink.new;
        }) bytes.now) }
    ensures ready { OnOk result (K.can_write sink.new) }
    ensures err { OnErr result
        (Fails (record {
          was = K.written sink.old;
          is = K.written sink.new;
          faults_were = K.faults sink.old;
          faults_are = K.faults sink.new;
        }) bytes.now) }
{
    let mut done = 0;
    while done < bytes.len() {
        done += sink.write(&bytes[done..])?;
    }
    Ok(())
}
