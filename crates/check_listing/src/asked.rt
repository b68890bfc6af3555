// The years that the listing asks for.
use std::io;

// Prints what there is to print of the years 0 to 2999, so that one which should be refused would show.
pub fn print_each_asked<T: Drop, F: Fn(u64) -> io::Result<T>>(print: F) -> io::Result<()>
    requires { F.IsAlwaysCallable print }
{
    for number in 0..3000 {
        print(number)?;
    }
    Ok(())
}
