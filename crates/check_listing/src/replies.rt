// What the program `year` answers to some inputs, good and bad.
use std::io;

pub fn print_replies(rt: &impl Print) -> io::Result<()> {
    check_print::print_answers(
        rt,
        &[
            b"1 822\n",
            b"001 000001684\n",
            b"2 445\nnothing that follows counts",
            b"2 697\n\n",
            // not covered
            b"0 1522\n",
            b"3 1522\n",
            b"999999999 999999999\n",
            b"1 821\n",
            b"1 1685\n",
            b"2 444\n",
            b"2 698\n",
            b"1 0\n",
            // no lines
            b"",
            b"\n",
            b"1 1522",
            b"1 1522\r\n",
            b"1  1522\n",
            b" 1 1522\n",
            b"1 1522 \n",
            b"1\t1522\n",
            b"1\n1522\n",
            b"1 1522 7\n",
            b"-1 1522\n",
            b"1 152x\n",
            b"0000000001 1522\n",
            b"1 0000001522\n",
        ],
    )
}
