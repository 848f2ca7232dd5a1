//! Commands that only numbers stand behind.

use crate::population::one_subscriber;
use crate::requests::push_requests;
use crate::stop::Stop;
use tatp_text::{mix, write_dump, write_last};

/// A generated request file, by its seed, its number, the count of files, of subscribers and of its requests.
pub fn load(numbers: &[u64], out: &mut Vec<u8>) -> Result<(), Stop> {
    let [seed, file, files, subscribers, count] = numbers else {
        return Err(Stop::NoCommand);
    };
    if file >= files || files > subscribers || *subscribers > 4_294_967_295 || *count > 99_999 {
        return Err(Stop::NoCommand);
    }
    let requests = mix(*out.allocator(), *seed, *file, *files, *subscribers, *count)?;
    Ok(push_requests(&requests, out)?)
}

/// The dump of a new database of one subscriber, with each of these last numbers.
pub fn dump(numbers: &[u64], out: &mut Vec<u8>) -> Result<(), Stop> {
    let tables = one_subscriber(*out.allocator())?;
    for last in numbers {
        write_dump(&tables, *last, out)?;
    }
    Ok(())
}

/// The last lines of these numbers.
pub fn last(numbers: &[u64], out: &mut Vec<u8>) -> Result<(), Stop> {
    for number in numbers {
        write_last(*number, out)?;
    }
    Ok(())
}
