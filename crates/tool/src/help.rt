// The help.
use command::count;
use system::{Failure, Io};

pub(crate) fn help<R, O: Print, E: Print>(io: &Io<R, O, E>, line: &[u8]) -> Result<(), Failure> {
    if count(line) > 1 {
        return Err(io.wrong(b"help takes nothing; 'ray help' says more\n", b"", b""));
    }
    io.print(
        b"ray: the angles at which a shortwave antenna reaches a listener by one hop\n\n  ray show JOB           print the service sheet\n  ray draw JOB [FILE]    write the drawing of the reflectrix, as SVG\n  ray job JOB [FILE]     write the answer, 1640 bytes\n  ray check JOB          say whether the job is accepted, or which limit it breaks\n  ray words JOB          print all words of the answer: name, value, bits\n  ray ask JOB FILE [freq MHZ] [hop KM] [min DEG]\n                         write the job with another frequency, hop or minimum angle\n  ray es FILE            print the rays by sporadic E\n  ray help               print this text\n\nJOB is a file of 5360 bytes, or - for standard input. FILE is made or\noverwritten; without it, or with -, the output goes to standard output.\nWhere the job is refused nothing is written.\n\nThe FILE of es is read, or - for standard input: 26 words of 4 bytes, least\nbyte first. km, how many points count, unsigned; then f32: fs, 3 for each of\n5 points; hs, 1 for each; gcd, the path in radians; gcdkm, the path in km;\namind; freq; fsdead.\n\nExit status: 0 done; 1 to 10 or 14 the limit that is broken; 64 wrong use;\n66 the input cannot be read; 73 FILE cannot be opened; 74 not all could be\nwritten.\n",
    )
}
